//! Which versions of the layout a reading takes.
ghost use Rattle.std.specs.Prelude.{◌≡◌, IfSome};
ghost use Rattle.im_image.specs.Headers.{MayRefuseHeader, version_fault};

use crate::header::Header;
use im_types::Refusal;

/// The versions of the layout that a reading takes. An image of another version is refused, whatever else is wrong with
/// it behind its headers.
#[derive(Clone, Copy, Debug, PartialEq, Eq)]
pub enum Versions {
    /// Either version.
    Any,
    /// The version in use. A sound header of the first version is refused with `OldVersion`.
    InUse,
    /// The first version. A sound header of any other version is refused with `BadHeader`.
    First,
}

impl Versions {
    // Returns why a sound header isn't taken, or `None` if it is.
    pub(crate) fn refuse(self, header: &Header) -> Option<Refusal>
        ensures fault { result ≡ version_fault self header.now.version }
        ensures only { IfSome result (λ e. MayRefuseHeader self e) }
    {
        match self {
            Versions::Any => None,
            Versions::InUse => {
                if header.is_old() {
                    Some(Refusal::OldVersion)
                } else {
                    None
                }
            }
            Versions::First => {
                if header.is_old() {
                    None
                } else {
                    Some(Refusal::BadHeader)
                }
            }
        }
    }
}
