//! A caller of the layers who knows only their public calls: each call of a run with threads is
//! made once, by its name and with its arguments in their order, on the text with the first
//! theorem. `status` is called in the tests of the program.

ghost use Rattle.std.specs.Prelude.{◌≡◌, IfOk, Option, false, length};
ghost use Rattle.mm_spec.specs.Text.{Bytes};
ghost use Rattle.mm_spec.specs.Output.{columns, theorems};
ghost use Rattle.mm_work.specs.Judged.{AllHaveCitations};
ghost use Rattle.mm_report.specs.CitingRows.{AreCitationsOf};

use crate::flags::{BY_ALL_NODES, INSIDE_COMMENT, OUTSIDE_COMMENT, WITHOUT_OPEN};
use crate::texts::{FIRST_REPORT, FIRST_TEXT};
use mm_board::Board;
use mm_bytes::{class_block, class_tail, count_lf, first_bad};
use mm_check::check;
use mm_lex::{Cuts, Piece, join, lex, lex_piece};
use mm_line::line;
use mm_plan::{Cutting, Plan};
use mm_proof::{Step, number, read_proof};
use mm_report::{Choice, write_citations, write_refusal, write_report};
use mm_rows::{Columns, Matrix, matrix, ones, or_row, waves};
use mm_rule::is_assertion;
use mm_run::{RunEnd, run};
use mm_spec::{Code, Fault, Form};
use mm_stmt::{Database, Kind, Sym, read};
use mm_work::{Citations, Gate, Judged, Open, check_all};
use std::alloc::{AllocError, Global};
use std::sync::Wait;
use std::thread::Threads;

/// How many tokens the text has.
const TOKEN_COUNT: usize = 62;

/// How many statements it has.
const STATEMENT_COUNT: u32 = 7;

/// How many symbols it has.
const SYMBOL_COUNT: u32 = 7;

/// The numbers of the statements with these labels; `wi2` is the theorem.
const WP: u32 = 2;

const WQ: u32 = 3;

const WI: u32 = 4;

const AX_1: u32 = 5;

const WI2: u32 = 6;

/// The numbers of the symbols `wff`, `->`, `p` and `q`.
const WFF: u32 = 0;

const ARROW: u32 = 3;

const P: u32 = 5;

const Q: u32 = 6;

/// The place of the last token of the statement `wi`.
const WI_END: u32 = 81;

/// The place of the first step of the proof.
const FIRST_STEP_PLACE: u32 = 152;

/// The length of the text in bytes.
const TEXT_END: u32 = 170;

/// How many symbols the formula of `wi` has.
const WI_LEN: usize = 6;

/// How many words the theorem's proof has, each of them a step.
const PROOF_LEN: usize = 5;

#[test]
fn bytes(rt: HostRuntime) {
    let block = class_block(&[b' '; 64]);
    let tail = class_tail(b"a \x80");
    assert!(&rt;
        block.white == u64::MAX
            && block.bad == 0
            && tail.white == 2
            && tail.bad == 4
            && first_bad(b"a \x80") == Some(2)
            && count_lf(b"\na\n") == 2
    );
}

/// Whether a piece is the summary of the whole text.
fn is_whole(piece: &Piece<Global>) -> bool {
    let head = piece.head();
    let tail = piece.tail();
    piece.from() == 0
        && piece.to() as usize == FIRST_TEXT.len()
        && !piece.unbroken()
        && head.start == 0
        && head.end == 0
        && tail.start == TEXT_END
        && tail.end == TEXT_END
        && piece.tokens(OUTSIDE_COMMENT).len() == TOKEN_COUNT
        && piece.fault(OUTSIDE_COMMENT) == None
        && piece.tokens(INSIDE_COMMENT).is_empty()
}

#[test]
fn pieces(rt: HostRuntime) -> Result<(), AllocError> {
    let first = lex_piece(rt.alloc(), FIRST_TEXT, 0, 60)?;
    let second = lex_piece(rt.alloc(), FIRST_TEXT, 60, FIRST_TEXT.len())?;
    assert!(&rt; is_whole(&join(rt.alloc(), FIRST_TEXT, first, second)?));
    Ok(())
}

/// Whether the half of the text is given as the place of the one cut.
fn is_given(alloc: Global, equal: &Cuts<Global>) -> Result<bool, AllocError> {
    let places = [FIRST_TEXT.len() as u32 / 2].as_slice().to_vec(alloc)?;
    match Cuts::from_places(places, FIRST_TEXT.len()) {
        Ok(given) => Ok(given.places() == equal.places()),
        Err(_) => Ok(false),
    }
}

#[test]
fn cuts(rt: HostRuntime) -> Result<(), AllocError> {
    let equal = Cuts::equal(rt.alloc(), FIRST_TEXT.len(), 2)?;
    let lexed = lex(&rt, rt.alloc(), FIRST_TEXT, &equal)?;
    let is_equal = is_given(rt.alloc(), &equal)?;
    assert!(&rt; is_equal && lexed.tokens.len() == TOKEN_COUNT && lexed.fault == None);
    Ok(())
}

/// The database of the text.
fn database_of<R: Threads + Sync>(
    rt: &R,
    alloc: Global,
) -> Result<Database<'static, Global>, AllocError> {
    let cuts = Cuts::equal(alloc, FIRST_TEXT.len(), 1)?;
    let lexed = lex(rt, alloc, FIRST_TEXT, &cuts)?;
    read(alloc, FIRST_TEXT, &lexed, WITHOUT_OPEN)
}

/// Whether this is said of the statement with the first axiom.
fn is_axiom_right(database: &Database<Global>) -> bool {
    if database.len() != STATEMENT_COUNT || !is_assertion(database, WI) {
        return false;
    }
    let frame = database.frame(WI);
    frame.hyps.as_slice() == [WP, WQ].as_slice()
        && frame.pairs.is_empty()
        && database.kind(WI) == Kind::Axiom
        && !database.is_open(WI)
        && database.end_at(WI) == WI_END
        && database.find(b"wi") == Some(WI)
        && database.label(WI) == Some(b"wi".as_slice())
        && database.formula(WI).len() == WI_LEN
        && database.typecode(WI) == Some(Sym::new(WFF))
        && database.active_at(WI, AX_1)
        && !database.active_at(WI, WI)
}

/// Whether this is said of the symbols, and of the statement with the theorem.
fn is_theorem_right(database: &Database<Global>) -> bool {
    database.len() == STATEMENT_COUNT
        && database.symbol_count() == SYMBOL_COUNT
        && database.name(Sym::new(ARROW)) == b"->".as_slice()
        && !database.is_variable(Sym::new(ARROW))
        && !database.disjoint_at(WI2, Sym::new(P), Sym::new(Q))
        && database.proof_words(WI2).len() == PROOF_LEN
}

#[test]
fn statements(rt: HostRuntime) -> Result<(), AllocError> {
    let database = database_of(&rt, rt.alloc())?;
    assert!(&rt;
        database.text() == FIRST_TEXT
            && database.fault() == None
            && is_axiom_right(&database)
            && is_theorem_right(&database)
            && database.theorems() == [WI2].as_slice()
            && database.axioms() == [WI, AX_1].as_slice()
    );
    Ok(())
}

/// Whether the proof of the theorem is read and checked.
fn is_proof_right(alloc: Global, database: &Database<Global>) -> bool {
    let theorems = database.theorems();
    if theorems.is_empty() {
        return false;
    }
    let theorem = theorems[theorems.len() - 1];
    let Ok(steps) = read_proof(alloc, database, theorem) else {
        return false;
    };
    let are_right = steps.theorem() == WI2
        && steps.len() == PROOF_LEN
        && steps.step(0) == Step::Label(WP)
        && steps.place(0) == FIRST_STEP_PLACE;
    match check(alloc, database, theorem, &steps, BY_ALL_NODES) {
        Ok(checked) => {
            are_right && checked.theorem() == WI2 && checked.cites() == [WI].as_slice()
        }
        Err(_) => false,
    }
}

#[test]
fn proofs(rt: HostRuntime) -> Result<(), AllocError> {
    let database = database_of(&rt, rt.alloc())?;
    assert!(&rt; is_proof_right(rt.alloc(), &database) && number(b"UA") == Some(21));
    Ok(())
}

#[test]
fn board(rt: HostRuntime) -> Result<(), AllocError> {
    let Ok((board, mut first)) = Board::new(rt.alloc(), 2) else {
        return Err(AllocError);
    };
    let Ok(mut second) = board.split(&mut first) else {
        return Err(AllocError);
    };
    let are_new = first.share() == 63
        && second.share() == 1
        && first.held() == None
        && !first.is_over();
    assert!(&rt; are_new && board.claim(&mut first) == Some(0) && first.held() == Some(0));
    board.settle(&mut first, 0);
    let is_idle = second.held() == None && !second.is_over();
    assert!(&rt; is_idle && board.claim(&mut second) == Some(1));
    assert!(&rt; board.look(&mut second) == 2 && second.held() == Some(1));
    board.report(&mut second, 1);
    let is_reported = second.seen() == 1 && second.held() == None;
    board.join(&mut first, second);
    let closed = board.close(first);
    assert!(&rt; is_reported && closed == (1, 1));
    Ok(())
}

/// Enters a gate.
fn enter<G: Gate>(gate: &G) {
    gate.enter(0, 0);
}

/// What the theorems of the text cite.
fn citations_of<R: Threads + Wait + Sync>(
    rt: &R,
    alloc: Global,
    database: &Database<Global>,
) -> Result<Citations<Global>, AllocError>
    ensures { IfOk result (λ citations. AllHaveCitations database.now.statements false citations) }
{
    let essential = false;
    match check_all(rt, alloc, database, 2, essential, &Open)? {
        Judged::Valid(citations) => Ok(citations),
        Judged::Faulty(_) => Err(AllocError),
    }
}

/// Whether the theorems of the text cite this, in this wave.
fn are_citations_right(alloc: Global, citations: &Citations<Global>) -> bool {
    let are_right = citations.rows() == 1
        && citations.theorem(0) == WI2
        && citations.of(0) == [WI].as_slice();
    match waves(alloc, citations) {
        Ok(waves) => are_right && waves.as_slice() == [0u32].as_slice(),
        Err(_) => false,
    }
}

#[test]
fn citations(rt: HostRuntime) -> Result<(), AllocError> {
    enter(&Open);
    let database = database_of(&rt, rt.alloc())?;
    let is_right = match citations_of(&rt, rt.alloc(), &database) {
        Ok(citations) => are_citations_right(rt.alloc(), &citations),
        Err(_) => false,
    };
    assert!(&rt; is_right);
    Ok(())
}

/// Whether the matrix has the one mark.
fn is_matrix_right(matrix: &Matrix<Global>) -> bool {
    matrix.rows() == 1
        && matrix.columns() == 1
        && matrix.cell(0, 0)
        && matrix.row_count(0) == 1
        && matrix.column_count(0) == 1
        && matrix.next_user(0, None) == Some(0)
        && matrix.digit(0, 0) == 8
}

/// Whether the columns and the matrix of one typecode are right.
fn are_rows_right<R: Threads + Wait + Sync>(
    rt: &R,
    alloc: Global,
    database: &Database<Global>,
) -> Result<bool, AllocError> {
    let columns = Columns::new(alloc, database, Some(b"wff"))?;
    let citations = citations_of(rt, alloc, database)?;
    let matrix = matrix(rt, alloc, &citations, &columns)?;
    Ok(columns.len() == 1 && columns.statement(0) == WI && is_matrix_right(&matrix))
}

#[test]
fn rows(rt: HostRuntime) -> Result<(), AllocError> {
    let mut row = [1u64];
    or_row(&mut row, &[6]);
    let database = database_of(&rt, rt.alloc())?;
    let are_right = are_rows_right(&rt, rt.alloc(), &database).unwrap_or(false);
    assert!(&rt; are_right && ones(&row) == 3);
    Ok(())
}

/// Whether the report of the text is written.
fn is_report_written(
    alloc: Global,
    database: &Database<Global>,
    chosen: &Columns<Global>,
    matrix: &Matrix<Global>,
) -> bool
    requires are_columns { (only : Option Bytes)
        × (chosen.now ≡ columns database.now.statements only) }
    requires width_is { length chosen.now ≡ matrix.now.columns }
    requires row_count_is { length (theorems database.now.statements) ≡ matrix.now.rows }
{
    let mut report = Vec::new(alloc);
    let written = write_report(
        &mut report,
        database,
        chosen,
        matrix,
        WITHOUT_OPEN,
        Form::One,
        Choice::All,
    );
    written.is_ok() && report.as_slice() == FIRST_REPORT
}

/// Whether the report of the text's citations is written.
fn are_citations_written(
    alloc: Global,
    database: &Database<Global>,
    chosen: &Columns<Global>,
    citations: &Citations<Global>,
) -> bool
    requires { AreCitationsOf database.now.statements citations.now }
{
    let mut report = Vec::new(alloc);
    let written = write_citations(
        &mut report,
        database,
        chosen,
        citations,
        None,
        WITHOUT_OPEN,
        Form::Two,
    );
    written.is_ok()
        && report.as_slice()
            == b"mmdepend 2\naxioms 2\ntheorems 1\ncitations\nwi2:1:wi\nend\n".as_slice()
}

#[test]
fn reports(rt: HostRuntime) -> Result<(), AllocError> {
    let alloc = rt.alloc();
    let database = database_of(&rt, alloc)?;
    let citations = citations_of(&rt, alloc, &database)?;
    let columns = Columns::new(alloc, &database, None)?;
    let matrix = matrix(&rt, alloc, &citations, &columns)?;
    assert!(&rt;
        is_report_written(alloc, &database, &columns, &matrix)
            && are_citations_written(alloc, &database, &columns, &citations)
    );
    Ok(())
}

#[test]
fn refusals(rt: HostRuntime) {
    let mut refusal = Vec::new(rt.alloc());
    let fault = Fault {
        at: 0,
        code: Code::BadByte,
    };
    let is_written = write_refusal(&mut refusal, b"\x80", &fault).is_ok();
    assert!(&rt; is_written && refusal.as_slice() == b"refused 1:1 E01\n".as_slice());
}

#[test]
fn runs(rt: HostRuntime) {
    let plan = Plan::without_options(Cutting::Places(Vec::new(rt.alloc())), 1);
    let mut from = FIRST_TEXT;
    let mut to = Vec::new(rt.alloc());
    assert!(&rt;
        plan.is_lawful()
            && run(&rt, rt.alloc(), &plan, &mut from, &mut to) == RunEnd::Accepted
            && to.as_slice() == FIRST_REPORT
    );
}

#[test]
fn lines(rt: HostRuntime) {
    let is_right = match line(rt.alloc(), &["mmdepend", "--workers", "2", "b.mm"]) {
        Ok(line) => line.plan.workers == 2 && line.file.as_deref() == Some("b.mm"),
        Err(_) => false,
    };
    assert!(&rt; is_right);
}
