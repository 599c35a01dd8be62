//! The choice of sections that `write_report` takes.

ghost use Rattle.std.specs.Prelude.{◌≡◌};
ghost use Rattle.mm_report.specs.Reports.{sections_of};

use mm_spec::Sections;

/// Which sections `write_report` writes. Every report also has its first lines and its last line.
#[derive(Clone, Copy, Debug, PartialEq, Eq)]
pub enum Choice {
    /// Matrix, counts and usage, in this order.
    All,
    /// The matrix alone.
    Matrix,
    /// The counts alone.
    Counts,
    /// The usage alone.
    Usage,
    /// The citations. `write_citations` writes these; `write_report` isn't given any, and writes no
    /// section.
    Citations,
}

impl Choice {
    /// The sections of marks that the choice names.
    pub(crate) fn sections(self) -> Sections
        ensures { result ≡ sections_of self }
    {
        match self {
            Choice::All => Sections::by_default(),
            Choice::Matrix => Sections {
                matrix: true,
                ..Sections::none()
            },
            Choice::Counts => Sections {
                counts: true,
                ..Sections::none()
            },
            Choice::Usage => Sections {
                usage: true,
                ..Sections::none()
            },
            Choice::Citations => Sections::none(),
        }
    }
}
