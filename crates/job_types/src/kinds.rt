//! The kinds of refusals as they are printed (this project's profile).
ghost use Rattle.std.specs.Prelude.{◌≡◌};
ghost use Rattle.job_types.specs.Kinds.{kind_text};

use dw_base::Kind;

/// A kind of refusal as it is printed.
#[tactic(auto, unfolding(crate::specs::Kinds::kind_text))]
pub fn kind_name(kind: Kind) -> &'static str
    ensures text { result.now ≡ kind_text kind }
{
    match kind {
        Kind::Header => "header",
        Kind::Range => "range",
        Kind::Fixed => "fixed",
        Kind::Compressed => "compressed",
        Kind::Supplementary => "supplementary",
        Kind::SplitDwarf => "split dwarf",
        Kind::UnknownDebug => "unknown debug",
        Kind::Twice => "twice",
        Kind::Unit => "unit",
        Kind::Abbreviation => "abbreviation",
        Kind::Form => "form",
        Kind::Entry => "entry",
        Kind::StringOffset => "string offset",
        Kind::StringTable => "string table",
        Kind::SharedIndex => "shared index",
        Kind::Line => "line",
        Kind::Stray => "stray",
        Kind::Macro => "macro",
        Kind::InlineGrows => "inline grows",
        Kind::Relocation => "relocation",
        Kind::TooWide => "too wide",
        Kind::BuildId => "build id",
        Kind::NameTable => "name table",
        Kind::TooLarge => "too large",
        Kind::DefinedPath => "defined path",
        Kind::FileType => "file type",
    }
}
