//! The version of Hourstable.

ghost use Rattle.std.specs.Prelude.{Some};
ghost use Rattle.program_io.specs.Versions.{version_text};

use std::fmt;

/// A version of Hourstable, written `major.minor.patch`.
#[repr(C)]
#[derive(Clone, Copy, Debug, PartialEq, Eq)]
pub struct LibraryVersion {
    /// Rises when a caller may have to change.
    pub major: u32,
    /// Rises when something is added.
    pub minor: u32,
    /// Rises with every other release.
    pub patch: u32,
}

impl fmt::Display for LibraryVersion {
    ghost output = { λ v. Some (version_text v) };

    fn fmt<W: fmt::Write>(&self, f: &mut fmt::Formatter<W>) -> fmt::Result {
        write!(f, "{}.{}.{}", self.major, self.minor, self.patch)
    }
}

/// The version of the command and of the library for C.
pub const LIBRARY_VERSION: LibraryVersion = LibraryVersion {
    major: 1,
    minor: 0,
    patch: 0,
};
