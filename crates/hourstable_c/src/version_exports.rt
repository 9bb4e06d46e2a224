//! The export for the version.

ghost use Rattle.std.specs.Prelude.{◌≡◌};
ghost use Rattle.program_io.specs.declared.version.TheConstants.{LIBRARY_VERSION};

use program_io::{LIBRARY_VERSION, LibraryVersion};

/// Writes the version of the library to `out`.
#[unsafe(no_mangle)]
pub extern "C" fn hs_library_version(out: &mut LibraryVersion)
    ensures { out.new ≡ LIBRARY_VERSION }
{
    *out = LIBRARY_VERSION;
}
