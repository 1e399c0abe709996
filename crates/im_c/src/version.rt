//! The versions of the library and of the layout, for C.
ghost use Rattle.std.specs.Prelude.{◌≡◌};
ghost use Rattle.im_types.specs.Types.{layout_in_use};

/// Returns the library's version: 10,000 for each major one, 100 for each minor one, and 1 for each patch. It is
/// `LT_VERSION_NUMBER` of the header.
#[unsafe(no_mangle)]
pub extern "C" fn lt_version() -> u32
    ensures { result ≡ 100 }
{
    100
}

/// Returns the version of the layout in which images are made and opened.
#[unsafe(no_mangle)]
pub extern "C" fn lt_layout_version() -> u16
    ensures { result ≡ layout_in_use.version }
{
    im_image::VERSION
}
