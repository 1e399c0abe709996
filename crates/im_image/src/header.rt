//! Headers, one for each area. The open header with the greater generation is in force.
ghost use Rattle.std.specs.Prelude.{◌≡◌, ◌≤◌, true, ◌&&◌, ◌↔◌, ◌∷◌, IfSome, IsSome, IsTrue, ◌==◌, slice_range};
ghost use Rattle.im_types.specs.Types.{AreLimits, layout_of, layout_named, sizes_of, are_sizes, same_bytes};
ghost use Rattle.im_types.specs.Types.{header_body, header_in, is_header, spells_header};

use byteorder::{ByteOrder, LittleEndian};
use im_types::layout::{OPEN, Version};
use im_types::{LAST, Limits};

/// The version of the layout in use.
pub const VERSION: u16 = 2;

/// The fields of a header.
#[derive(Clone, Copy, Debug, PartialEq, Eq)]
pub struct Header {
    /// The version of the layout. It is 2, or 1 in an image that is only read.
    pub version: u16,
    /// The area of this header, 0 or 1.
    pub area: u8,
    /// The number of areas written so far, from 1 on.
    pub generation: u64,
    /// The number of commands that the area holds.
    pub count: u64,
    /// The sizes of the memory and of its journal.
    pub limits: Limits,
}

impl Header {
    ghost use Rattle.im_image.specs.Headers.{seen};

    /// Returns the 64 bytes of the header, with its gate open.
    pub fn spell(&self) -> [u8; 64]
        ensures { result ≡ 0xA5 ∷ header_body (seen self.now) }
    {
        let mut bytes = [0; 64];
        bytes[0] = OPEN;
        bytes[1] = self.area;
        LittleEndian::write_u16(&mut bytes[2..4], self.version);
        bytes[4] = 0x49;
        bytes[5] = 0x4D;
        bytes[6] = 0x45;
        bytes[7] = 0x4D;
        LittleEndian::write_u64(&mut bytes[8..16], self.generation);
        LittleEndian::write_u64(&mut bytes[16..24], self.count);
        LittleEndian::write_u32(&mut bytes[24..28], self.limits.cells);
        LittleEndian::write_u16(&mut bytes[28..30], self.limits.elements);
        LittleEndian::write_u32(&mut bytes[32..36], self.limits.slots);
        bytes
    }

    /// Returns the version of the image's layout.
    pub fn layout(&self) -> Version
        ensures { layout_of result ≡ layout_named self.now.version }
    {
        Version::named(self.version)
    }

    /// Returns whether the header is of the first version. Images of that version are only read.
    pub fn is_old(&self) -> bool
        ensures { result ≡ (self.now.version == 1) }
    {
        self.version == 1
    }

    // Returns whether its numbers are allowed in the header of this area.
    fn is_of(&self, area: u8) -> bool
        ensures is { result ≡ is_header (layout_named self.now.version) area (seen self.now) }
        ensures range { IsTrue result → (self.now.area ≡ area) × (self.now.count ≤ LAST) }
    {
        let version = self.layout();
        self.version == version.number()
            && self.area == area
            && self.generation >= 1
            && self.generation <= LAST
            && self.count <= LAST
            && are_sizes(version, self.limits)
    }

    // Returns whether these bytes spell it for this area.
    fn is_spelled(&self, bytes: &[u8; 64], area: u8) -> bool
        ensures is { result ≡ (same_bytes (slice_range bytes.now 1 64) (header_body (seen self.now))
            && is_header (layout_named self.now.version) area (seen self.now)) }
        ensures range { IsTrue result → (self.now.area ≡ area) × (self.now.count ≤ LAST) }
    {
        bytes[1..] == self.spell()[1..] && self.is_of(area)
    }

    // The header whose fields stand in these bytes, with these limits.
    fn with_limits(bytes: &[u8; 64], limits: Limits) -> Header
        requires { sizes_of limits ≡ (header_in bytes.now).sizes }
        ensures { seen result ≡ header_in bytes.now }
    {
        Header {
            version: LittleEndian::read_u16(&bytes[2..4]),
            area: bytes[1],
            generation: LittleEndian::read_u64(&bytes[8..16]),
            count: LittleEndian::read_u64(&bytes[16..24]),
            limits,
        }
    }

    /// Returns the header that the bytes behind a gate spell for this area, or `None`.
    pub fn read(bytes: &[u8; 64], area: u8) -> Option<Header>
        ensures found { IfSome result (λ h. seen h ≡ header_in bytes.now) }
        ensures range { IfSome result (λ h. (h.area ≡ area) × (h.count ≤ LAST)) }
        ensures only { IsSome result
            ↔ (spells_header (layout_named (header_in bytes.now).version) area bytes.now ≡ true) }
    {
        let header = Header::with_limits(bytes, limits_in(bytes)?);
        if header.is_spelled(bytes, area) {
            Some(header)
        } else {
            None
        }
    }
}

// Returns whether an image of a version may have these sizes.
fn are_sizes(version: Version, limits: Limits) -> bool
    ensures { result ≡ are_sizes (layout_of version) (sizes_of limits) }
{
    limits.cells <= version.most_cells()
}

// The limits in these bytes, if they are in range.
fn limits_in(bytes: &[u8; 64]) -> Option<Limits>
    ensures found { IfSome result (λ l. sizes_of l ≡ (header_in bytes.now).sizes) }
    ensures only { AreLimits (header_in bytes.now).sizes.cells (header_in bytes.now).sizes.elements
        (header_in bytes.now).sizes.slots → IsSome result }
{
    Limits::new(
        LittleEndian::read_u32(&bytes[24..28]),
        LittleEndian::read_u16(&bytes[28..30]),
        LittleEndian::read_u32(&bytes[32..36]),
    )
}
