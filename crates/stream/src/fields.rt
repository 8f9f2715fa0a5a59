// The fields of the records of kinds 1 and 2: the header that they state, and their faults.
ghost use Rattle.std.specs.Prelude.{◌≡◌, ◌+◌, ◌≤◌, length};
ghost use Rattle.lists.specs.Refusals.{verdict};
ghost use Rattle.stream.specs.Stream.{u8, u16, u32, header_of, sides_fault, parameters_fault};
ghost use Rattle.stream.specs.Internal.{range_fault, radius_fault};

use crate::Header;
use lists::Refusal;

pub(crate) fn u16_at(s: &[u8], at: usize) -> u16
    requires { at + 2 ≤ length s.now }
    ensures { result ≡ u16 s.now at }
{
    u16::from_le_bytes([s[at], s[at + 1]])
}

fn u32_at(s: &[u8], at: usize) -> u32
    requires { at + 4 ≤ length s.now }
    ensures { result ≡ u32 s.now at }
{
    u32::from_le_bytes([s[at], s[at + 1], s[at + 2], s[at + 3]])
}

pub(crate) fn header_of(sides: &[u8], parameters: &[u8]) -> Header
    requires { (length sides.now ≡ 4) × (length parameters.now ≡ 16) }
    ensures { result ≡ header_of sides.now parameters.now }
{
    Header {
        width: usize::from(u16_at(sides, 0)),
        height: usize::from(u16_at(sides, 2)),
        ring: u32::from(parameters[0]),
        threshold_bits: u32_at(parameters, 1),
        window: u32::from(parameters[5]),
        least_neighbours: u32::from(parameters[6]),
        centroid_radius: u32::from(parameters[7]),
        merge_bits: u32_at(parameters, 8),
        levels: u32::from(parameters[12]),
        minimum_side: usize::from(u16_at(parameters, 13)),
        search_radius: u32::from(parameters[15]),
    }
}

pub(crate) fn sides_fault(body: &[u8]) -> Result<(), Refusal>
    requires { length body.now ≡ 4 }
    ensures { result ≡ verdict (sides_fault (u16 body.now 0) (u16 body.now 2)) }
{
    if crate::LARGEST_STREAM_SIDE < usize::from(u16_at(body, 0)) {
        return Err(Refusal::SideTooLarge);
    }
    if crate::LARGEST_STREAM_SIDE < usize::from(u16_at(body, 2)) {
        return Err(Refusal::SideTooLarge);
    }
    Ok(())
}

fn range_fault(ring: u8, window: u8, centroid_radius: u8) -> Result<(), Refusal>
    ensures { result ≡ verdict (range_fault ring window centroid_radius) }
{
    if frame_params::is_outside(
        u32::from(ring),
        u32::from(window),
        u32::from(centroid_radius),
    ) {
        return Err(Refusal::OutOfRange);
    }
    Ok(())
}

fn radius_fault(bits: u32) -> Result<(), Refusal>
    ensures { result ≡ verdict (radius_fault bits) }
{
    let radius = float32::from_bits(bits);
    if merge_radius::is_outside(radius) {
        return Err(Refusal::RadiusOutside);
    }
    Ok(())
}

pub(crate) fn parameters_fault(body: &[u8]) -> Result<(), Refusal>
    requires { length body.now ≡ 16 }
    ensures { result ≡ verdict (parameters_fault (u8 body.now 0) (u8 body.now 5) (u8 body.now 7)
        (u32 body.now 8)) }
{
    let range = range_fault(body[0], body[5], body[7]);
    let radius = radius_fault(u32_at(body, 8));
    range.and(radius)
}
