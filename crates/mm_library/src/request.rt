//! What a call requests.

ghost use Rattle.std.specs.Prelude.{◌≡◌};
ghost use Rattle.mm_library.specs.Calls.{IsAnswer, call_of, form_of, sections_with_bits};

use crate::status::Status;
use mm_spec::{Form, Request, Sections};

/// The sections of a report, by their bits; at least one.
fn sections(bits: u32) -> Option<Sections>
    ensures { result ≡ sections_with_bits bits }
{
    if bits == 0 || 64 <= bits {
        return None;
    }
    Some(Sections {
        matrix: bits % 2 == 1,
        counts: bits / 2 % 2 == 1,
        usage: bits / 4 % 2 == 1,
        citations: bits / 8 % 2 == 1,
        statements: bits / 16 % 2 == 1,
        proofs: bits / 32 % 2 == 1,
    })
}

/// The form of a matrix, by number.
fn form(number: u32) -> Option<Form>
    ensures { result ≡ form_of number }
{
    match number {
        1 => Some(Form::One),
        2 => Some(Form::Two),
        _ => None,
    }
}

/// What is requested, or the status that says why there is no request.
pub(crate) fn request<'a>(
    only: &'a [u8],
    has_only: bool,
    section_bits: u32,
    form_number: u32,
    essential: bool,
    with_open: bool,
) -> Result<Request<'a>, Status>
    ensures { IsAnswer (call_of has_only only.now section_bits form_number essential with_open)
        result }
{
    let (Some(sections), Some(form)) = (sections(section_bits), form(form_number)) else {
        return Err(Status::NoSuchRequest);
    };
    if has_only && std::str::from_utf8(only).is_err() {
        return Err(Status::TypecodeNotUtf8);
    }
    Ok(Request {
        only: if has_only { Some(only) } else { None },
        sections,
        form,
        essential,
        with_open,
    })
}
