//! Reading the words of a command line.

ghost use Rattle.std.specs.Prelude.{◌≡◌, ◌≤◌, List, IfOk, IfErr, Some, codes, map, option_map};
ghost use Rattle.clap.specs.Walk.{Text};
ghost use Rattle.std.specs.Prelude.{true, false};
ghost use Rattle.std.specs.String.{string_bytes};
ghost use Rattle.std.specs.Str.Parse.{digits_value, without_leading_plus};
ghost use Rattle.clap.specs.Words.{app_of, first_value, found_of, kind_of, one_text, rule_of};
ghost use Rattle.mm_line.specs.Found.{Finds, HasForm, HasNumber, HasSections, IsRefusalForKind};
ghost use Rattle.mm_line.specs.Lines.{AreReadAs, IsCommand, IsFormRule, IsLineRefusal};
ghost use Rattle.mm_line.specs.Lines.{file_rule, flag_rule, form_word, number_rule, report_rule};
ghost use Rattle.mm_line.specs.Lines.{report_texts, sections_in as spec_sections_in, text_rule};

use crate::command_line::{Line, LineRefused};
use crate::sections::{report_texts, sections_named_in};
use clap::error::ErrorKind;
use clap::{Arg, ArgAction, ArgMatches, Command, Error};
use mm_plan::{Cutting, Plan};
use mm_spec::{Form, Sections};
use mm_version::VERSION;
use std::alloc::{AllocError, Global};
use std::convert::AsStr;

static FORMS: [&str; 2] = ["1", "2"];

/// The last lines of the help.
const HELP_FOOTER: &str = "\
The standard output gets the report, or one line with the first fault and its place.
Status: 0 accepted, 1 refused, 2 invalid command line, 3 reading or writing failed,
4 out of memory. For 2 to 4 the standard error says why.
The codes of faults (E00 to E45) are explained in docs/FAULTS.md.";

/// An option with a whole number from 1 to 64, which are the limits of workers and pieces in
/// `mm_spec`, and 4 by default.
fn number_option<'a>(alloc: Global, name: &'a str, help: &'a str) -> Arg<'a>
    ensures { rule_of result ≡ number_rule name.entry.now }
{
    Arg::new(alloc, name)
        .long(name)
        .action(ArgAction::Set)
        .value_name("N")
        .value_parser(clap::value_parser!(u32).range(1..65))
        .default_value("4")
        .help(help)
}

/// The option that chooses the columns.
fn only_option<'a>(alloc: Global) -> Arg<'a>
    ensures { rule_of result ≡ text_rule (codes "only") }
{
    Arg::new(alloc, "only")
        .long("only")
        .action(ArgAction::Set)
        .value_name("T")
        .help("Report on the axioms of typecode T alone, such as '|-'")
}

/// The option that chooses the sections, which takes one of these texts.
fn report_option<'a>(alloc: Global, texts: &'a [&'a str]) -> Arg<'a>
    ensures { rule_of result ≡ report_rule texts.entry }
{
    Arg::new(alloc, "report")
        .long("report")
        .action(ArgAction::Set)
        .value_name("PART")
        .value_parser(texts)
        .hide_possible_values(true)
        .default_value("all")
        .help(
            "Write these parts of the report, with commas between them: \
               matrix, counts, usage, citations, proofs, statements, or all, which is the \
               first three",
        )
}

/// The option that chooses the form of the matrix.
fn form_option<'a>(alloc: Global) -> Arg<'a>
    ensures { IsFormRule (rule_of result) }
{
    Arg::new(alloc, "form")
        .long("form")
        .action(ArgAction::Set)
        .value_name("N")
        .value_parser(FORMS.as_slice())
        .default_value("1")
        .help("Write the matrix as a digit for each column, or for each four")
}

/// The flag that counts as citations only what the logical part of a proof applies.
fn essential_flag<'a>(alloc: Global) -> Arg<'a>
    ensures { rule_of result ≡ flag_rule (codes "essential") }
{
    Arg::new(alloc, "essential")
        .long("essential")
        .action(ArgAction::SetTrue)
        .help("Count what the logical part of a proof cites, and not what builds its formulas")
}

/// The flag that counts a theorem whose proof is `?` as an axiom.
fn open_flag<'a>(alloc: Global) -> Arg<'a>
    ensures { rule_of result ≡ flag_rule (codes "open") }
{
    Arg::new(alloc, "open")
        .long("open")
        .action(ArgAction::SetTrue)
        .help("Count a theorem whose proof is ? as an axiom")
}

/// The option that names the database with which the other one is compared.
fn against_option<'a>(alloc: Global) -> Arg<'a>
    ensures { rule_of result ≡ text_rule (codes "against") }
{
    Arg::new(alloc, "against")
        .long("against")
        .action(ArgAction::Set)
        .value_name("OLD")
        .help("Write what FILE has and OLD hasn't, and the other way round, in place of the report")
}

/// The flag by which a comparison writes the report on the one database besides.
fn and_report_flag<'a>(alloc: Global) -> Arg<'a>
    ensures { rule_of result ≡ flag_rule (codes "and-report") }
{
    Arg::new(alloc, "and-report")
        .long("and-report")
        .action(ArgAction::SetTrue)
        .help("With --against, write the report on FILE behind that, as --report asks for it")
}

/// The argument that names the database.
fn file_argument<'a>(alloc: Global) -> Arg<'a>
    ensures { rule_of result ≡ file_rule }
{
    Arg::new(alloc, "FILE").action(ArgAction::Set).help(
        "The database; without it, or where it is -, the standard input is read",
    )
}

/// The command, with one line of help for each argument. `--report` takes one of these texts.
fn command<'a>(alloc: Global, texts: &'a [&'a str]) -> Result<Command<'a>, AllocError>
    ensures { (words : List Text) → map (λ t. t.now) texts.now ≡ report_texts words
        → IfOk result (λ c. IsCommand words (app_of c)) }
{
    let arguments = vec![in alloc;
        number_option(alloc, "workers", "Check the proofs by N threads, 1 to 64"),
        number_option(alloc, "pieces", "Read the text in N pieces, 1 to 64"),
        only_option(alloc),
        report_option(alloc, texts),
        form_option(alloc),
        essential_flag(alloc),
        open_flag(alloc),
        against_option(alloc),
        and_report_flag(alloc),
        file_argument(alloc),
    ]?;
    Command::new(alloc, "mmdepend")
        .about("Verifies a Metamath database and reports on which axioms each theorem rests")
        .after_help(HELP_FOOTER)
        .version(VERSION)
        .args(arguments)
}

/// Turns an error of clap into a refusal.
fn refusal_of(alloc: Global, error: &Error) -> Result<LineRefused, AllocError>
    ensures { IfOk result (IsRefusalForKind (kind_of error.now)) }
{
    let text = error.to_string(alloc)?;
    Ok(match error.kind() {
        ErrorKind::DisplayHelp | ErrorKind::DisplayVersion => LineRefused::Help(text),
        ErrorKind::OutOfMemory => LineRefused::Memory,
        _ => LineRefused::Bad(text),
    })
}

/// What clap finds in the words, where `--report` takes one of these texts.
fn find_matches<'a, S: AsStr>(
    alloc: Global,
    words: &'a [S],
    texts: &'a [&'a str],
) -> Result<ArgMatches<'a>, LineRefused>
    requires { map (λ t. t.now) texts.now ≡ report_texts (map S.text words.now) }
    ensures are_found { IfOk result (λ m. Finds (map S.text words.entry.now) m) }
    ensures is_refused { IfErr result (λ e. IsLineRefusal (map S.text words.entry.now) e) }
{
    match command(alloc, texts)?.try_get_matches_from(words) {
        Ok(matches) => Ok(matches),
        Err(error) => Err(refusal_of(alloc, &error)?),
    }
}

/// The number that was given for an option, or its default.
fn number_in(matches: &ArgMatches<'_>, option: &str) -> u32
    requires { HasNumber matches.now option.now }
    ensures is_number { option_map (λ t. digits_value 10 (without_leading_plus t))
        (one_text (found_of matches.now) option.now)
        ≡ Some result }
    ensures number_ge_1 { 1 ≤ result }
    ensures number_le_64 { result ≤ 64 }
{
    match matches.get_one(option) {
        Some(number) => number,
        None => unreachable!("clap has read a number there"),
    }
}

/// The sections that `--report` requests.
fn sections_in(matches: &ArgMatches<'_>) -> Sections
    ensures { result ≡ spec_sections_in (first_value (found_of matches.now) (codes "report")) }
{
    match matches.get_str("report") {
        Some(text) => sections_named_in(text),
        None => Sections::by_default(),
    }
}

/// The form that `--form` requests.
fn form_in(matches: &ArgMatches<'_>) -> Form
    requires { HasForm matches.now }
    ensures { first_value (found_of matches.now) (codes "form") ≡ Some (form_word result) }
{
    match matches.get_str("form") {
        Some("2") => Form::Two,
        _ => Form::One,
    }
}

/// Copies the text that was given for an argument, if any.
fn text_in(
    alloc: Global,
    matches: &ArgMatches<'_>,
    argument: &str,
) -> Result<Option<String>, AllocError>
    ensures { IfOk result
        (λ r. option_map string_bytes r ≡ first_value (found_of matches.now) argument.now) }
{
    match matches.get_str(argument) {
        Some(text) => Ok(Some(String::from_str(alloc, text)?)),
        None => Ok(None),
    }
}

/// Reads the words of a command line; the first one is the program's name. `Help` comes only if
/// help or the version is requested, `Bad` only if the command doesn't accept the words, and
/// `Memory` only if out of memory.
pub fn line<S: AsStr>(alloc: Global, words: &[S]) -> Result<Line, LineRefused>
    ensures is_read { IfOk result (λ l. AreReadAs (map S.text words.now) l) }
    ensures is_refused { IfErr result (λ e. IsLineRefusal (map S.text words.now) e) }
{
    let texts = report_texts(alloc, words)?;
    let matches = find_matches(alloc, words, &texts)?;
    let plan = Plan {
        cuts: Cutting::Count(number_in(&matches, "pieces")),
        workers: number_in(&matches, "workers"),
        only: text_in(alloc, &matches, "only")?,
        choice: sections_in(&matches),
        form: form_in(&matches),
        essential: matches.get_flag("essential"),
        with_open: matches.get_flag("open"),
        and_report: matches.get_flag("and-report"),
    };
    let against = text_in(alloc, &matches, "against")?;
    let file = text_in(alloc, &matches, "FILE")?;
    Ok(Line {
        plan,
        against,
        file,
    })
}
