//! What Metamath databases mean (Metamath book: "Specification of the Metamath Language", and the
//! appendix "Compressed Proofs"). The folder `specs/` defines words, tokens, statements, proofs,
//! faults, citations, reports, what two databases differ in, and the ends of runs and comparisons;
//! nearly every other crate depends on it. The types that go with the definitions are declared
//! here. There is no code except the numbers of codes, the bytes of a word, some sets of sections
//! and the request without options. What a reader has to believe of this crate are these types and
//! the folder `specs/` without `specs/Laws`, which has definitions on which no output depends:
//! laws, proofs and contracts of other crates use them. The laws that the definitions obey are in
//! the crate `mm_laws`.
#![tactic(auto)]

ghost use Rattle.std.specs.Prelude.{◌≡◌};
ghost use Rattle.mm_spec.specs.Request.{without_options, no_sections, default_sections, has_marks};

mod bytes;
mod codes;

use std::alloc::Allocator;
use std::marker::Model;

/// The greatest number of bytes of a text: `text_limit` of the definitions.
pub const TEXT_LIMIT: usize = 2_147_483_647;

/// The greatest number of symbols of a formula in a proof, its typecode included: `formula_limit`
/// of the definitions.
pub const FORMULA_LIMIT: usize = 1_048_576;

/// The greatest number of pieces into which a text is cut by their number: `piece_limit` of the
/// definitions.
pub const PIECE_LIMIT: u32 = 64;

/// The greatest number of workers that check proofs: `worker_limit` of the definitions.
pub const WORKER_LIMIT: u32 = 64;

/// A word of a text by its places, which are byte offsets from 0: the bytes from `start` up to, but
/// not including, `end`.
#[derive(Clone, Copy, Debug, PartialEq, Eq)]
pub struct Word {
    pub start: u32,
    pub end: u32,
}

/// What a word is, inside a comment or outside (Metamath book, "Preliminaries" and
/// "Preprocessing").
#[derive(Clone, Copy, Debug, PartialEq, Eq)]
pub enum Role {
    /// A keyword, a label, a math symbol, a word of a proof.
    Token,
    /// `$(`, which opens a comment.
    Opening,
    /// `$)`, which closes it.
    Closing,
    /// A word within a comment.
    Comment,
    /// None of these.
    Faulty,
}

/// Which sections a report has. Every report also has its first lines and its last line.
#[derive(Clone, Copy, Debug, PartialEq, Eq)]
pub struct Sections {
    /// A row for each theorem: its label, and digits that say for each column whether the theorem
    /// rests on that axiom (`Form`).
    pub matrix: bool,
    /// A line for each theorem: its label, and the number of columns on whose axioms it rests.
    pub counts: bool,
    /// A line for each column: its label, the number of theorems that rest on that axiom, and their
    /// labels.
    pub usage: bool,
    /// A line for each theorem: its label, the number of assertions that its own proof cites, and
    /// their labels.
    pub citations: bool,
    /// A line for each theorem: its label, the number of the steps of its proof, and these steps:
    /// the label of each, or the number of the step that it repeats.
    pub proofs: bool,
    /// A line for each assertion: its label, its kind, its place, its mandatory hypotheses, which
    /// variables have to be distinct, and its formula.
    pub statements: bool,
}

impl Sections {
    /// No section.
    pub fn none() -> Self
        ensures { result ≡ no_sections }
    {
        Sections {
            matrix: false,
            counts: false,
            usage: false,
            citations: false,
            proofs: false,
            statements: false,
        }
    }

    /// Matrix, counts and usage: the sections that a report has where none is chosen.
    pub fn by_default() -> Self
        ensures { result ≡ default_sections }
    {
        Sections {
            matrix: true,
            counts: true,
            usage: true,
            citations: false,
            proofs: false,
            statements: false,
        }
    }

    /// Whether there is a section of what theorems rest on: matrix, counts or usage.
    pub fn has_marks(self) -> bool
        ensures { result ≡ has_marks self }
    {
        self.matrix || self.counts || self.usage
    }
}

/// How the matrix of a report is written.
#[derive(Clone, Copy, Debug, PartialEq, Eq)]
pub enum Form {
    /// A digit for each column, 0 or 1.
    One,
    /// A hexadecimal digit for every four columns, the first of them as its highest bit.
    Two,
}

/// What is requested of a report.
#[derive(Drop)]
pub struct Request<'a> {
    /// The typecode of the axioms that are columns and of the citations that are listed, if one is
    /// chosen.
    pub only: Option<&'a [u8]>,
    pub sections: Sections,
    /// How the matrix is written.
    pub form: Form,
    /// Whether a theorem cites only by the essential nodes of its proof.
    pub essential: bool,
    /// Whether open theorems count as axioms.
    pub with_open: bool,
}

impl<'a> Request<'a> {
    /// What is requested where no option is given: matrix, counts and usage in the first form, on
    /// all axioms, by all nodes.
    pub fn without_options() -> Self
        ensures { result ≡ without_options }
    {
        Request {
            only: None,
            sections: Sections::by_default(),
            form: Form::One,
            essential: false,
            with_open: false,
        }
    }
}

impl<'a> Model for Request<'a> {
    ghost use Rattle.std.specs.Option.{option_copied};
    ghost use Rattle.mm_spec.specs.Request.{Request as Requested};

    ghost Value = { Requested };

    ghost view = { λ r. record {
      only = option_copied r.only;
      sections = r.sections;
      form = r.form;
      essential = r.essential;
      with_open = r.with_open;
    } };
}

/// A fault of a text: the place, a byte offset from 0, and what is wrong there.
#[derive(Clone, Copy, Debug, PartialEq, Eq)]
pub struct Fault {
    pub at: u32,
    pub code: Code,
}

/// How a run ends.
#[derive(Clone, Copy, PartialEq, Eq, Debug)]
pub enum RunEnd {
    /// The database has no fault, and its report was written.
    Accepted,
    /// The database has this first fault, and its refusal was written.
    Refused(Fault),
    /// A read failed; nothing was written.
    ReadFailed,
    /// A write failed or accepted no byte; a prefix of the output was written.
    WriteFailed,
    /// Out of memory; nothing was written.
    NoMemory,
}

/// How a comparison of two texts, OLD and NEW, ends.
#[derive(Clone, Copy, PartialEq, Eq, Debug)]
pub enum ComparisonEnd {
    /// Neither text has a fault, and the differences were written.
    Compared,
    /// The text of OLD has this first fault, and its refusal was written.
    OldRefused(Fault),
    /// The text of OLD has no fault, that of NEW has this first one, and its refusal was written.
    NewRefused(Fault),
    /// A read failed; nothing was written.
    ReadFailed,
    /// A write failed or accepted no byte; a prefix of the output was written.
    WriteFailed,
    /// Out of memory; nothing was written.
    NoMemory,
}

/// The tokens of a text before its first lexical fault, and that fault (Metamath book,
/// "Preliminaries" and "Preprocessing").
#[derive(Drop)]
pub struct Lexed<A: Allocator> {
    pub tokens: Vec<Word, A>,
    pub fault: Option<Fault>,
}

/// What is wrong at a place. It prints as `E` and two digits.
#[derive(Clone, Copy, Debug, PartialEq, Eq)]
pub enum Code {
    /// E00: the text is longer than 2,147,483,647 bytes. At 0.
    TextTooLong,
    /// E01: a byte that is neither white space nor printable, in comments too. At the word's first
    /// such byte.
    BadByte,
    /// E02: in a comment, a word that contains `$(` or `$)` and is not `$)`. At the word.
    MarkInComment,
    /// E03: a comment is open at the end of the file. At its `$(`.
    OpenComment,
    /// E04: outside comments, a word that contains `$` and is no keyword, or is `$)`. At the word.
    StrayDollar,
    /// E05: `$[` or `$]`, wherever it occurs. At the token.
    Inclusion,
    /// E06: at the beginning of a statement, a word without `$` that is no label. At the word.
    BadLabel,
    /// E07: any other token that is not expected. At the token.
    UnexpectedToken,
    /// E08: the file ends within a statement. At the end of the file.
    OpenStatement,
    /// E09: `$}` without an open block. At the `$}`.
    UnopenedBlock,
    /// E10: the file ends between statements while a block is open. At the end of the file.
    OpenBlock,
    /// E11: a `$c` in a block. At the `$c`.
    ConstantInBlock,
    /// E12: a `$c` or `$v` that declares nothing. At the `$.`.
    EmptyDeclaration,
    /// E13: a symbol that may not be declared again. At the symbol.
    DeclaredBefore,
    /// E14: a symbol and a label that are equal. At the one that comes later.
    LabelIsSymbol,
    /// E15: a label that was used before. At the label.
    LabelUsedBefore,
    /// E17: a formula whose first symbol is no constant, or that has none. At the symbol, or at the
    /// `$.` or `$=`.
    BadTypecode,
    /// E18: a symbol of a formula that is neither a constant nor an active variable. At the symbol.
    UndeclaredSymbol,
    /// E19: a `$f` of anything other than a constant and an active variable. At the `$f`.
    BadFloating,
    /// E20: a `$f` of a variable that has an active `$f`. At the variable.
    TypedBefore,
    /// E21: a `$f` of a variable to which an earlier `$f` gave another typecode. At the variable.
    OtherTypecode,
    /// E22: a variable of a formula without an active `$f`. At the symbol.
    UntypedVariable,
    /// E23: a `$d` of fewer than two symbols. At the `$.`.
    TooFewVariables,
    /// E24: a symbol of a `$d` that is no active variable. At the symbol.
    UndeclaredVariable,
    /// E25: a symbol that occurs twice in a `$d`. At the second occurrence.
    RepeatedVariable,
    /// E31: a proof without words, or a compressed one without letters. At the `$.`.
    EmptyProof,
    /// E32: a proof with a `?`. At the `?`.
    IncompleteProof,
    /// E33: a word that isn't the label of an active hypothesis or earlier assertion. At the word.
    UnusableLabel,
    /// E34: the stack has fewer entries than the assertion has mandatory hypotheses. At the step.
    TooFewEntries,
    /// E35: no substitution turns the mandatory hypotheses into the last entries. At the step.
    UnmatchedHypotheses,
    /// E36: a pair of disjoint variables is replaced by expressions that are not disjoint. At the
    /// step.
    NotDisjoint,
    /// E37: at the end of the proof the stack doesn't have exactly one entry. At the `$.`.
    NotOneEntry,
    /// E38: at the end of the proof the entry is not the theorem's formula. At the `$.`.
    OtherFormula,
    /// E39: a formula of more than 1,048,576 symbols. At the step.
    FormulaTooLong,
    /// E41: the brackets of a compressed proof are not closed. At the `$.`.
    OpenBrackets,
    /// E42: a byte of a compressed proof that is neither `A` to `Z` nor `?`. At the byte.
    BadLetter,
    /// E43: a number of a compressed proof has no last digit. At the `Z` after it, or at the `$.`.
    OpenNumber,
    /// E44: `Z` before the first number. At the `Z`.
    MarkBeforeStep,
    /// E45: a number above all that have a meaning. At its first letter.
    NumberTooLarge,
}
