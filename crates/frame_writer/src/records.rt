// The bytes of the records: numbers are little-endian, and a byte with the kind comes before every 32 pixels.
ghost use Rattle.std.specs.Prelude.{◌≡◌, ◌≤◌, length};
ghost use Rattle.lists.specs.Tab.{tab};
ghost use Rattle.stream.specs.RoundTrip.{frame_bytes};
ghost use Rattle.stream.specs.Stream.{most_pixels};
ghost use Rattle.frame_writer.specs.Internal.{length_of, FieldsFit, head_bytes, record_byte};

use stream::Header;

// How long the stream of a given number of pixels is.
pub(crate) fn length_of(pixels: usize) -> usize
    requires { pixels ≤ most_pixels }
    ensures { result ≡ length_of pixels }
{
    23 + 33 * pixels.div_ceil(32)
}

// The records of kinds 1 and 2.
fn head_of(header: Header) -> [u8; 22]
    requires { FieldsFit header }
    ensures { result ≡ head_bytes header }
{
    let width = (header.width as u16).to_le_bytes();
    let height = (header.height as u16).to_le_bytes();
    let threshold = header.threshold_bits.to_le_bytes();
    let merge = header.merge_bits.to_le_bytes();
    let minimum = (header.minimum_side as u16).to_le_bytes();
    [
        1,
        width[0],
        width[1],
        height[0],
        height[1],
        2,
        header.ring as u8,
        threshold[0],
        threshold[1],
        threshold[2],
        threshold[3],
        header.window as u8,
        header.least_neighbours as u8,
        header.centroid_radius as u8,
        merge[0],
        merge[1],
        merge[2],
        merge[3],
        header.levels as u8,
        minimum[0],
        minimum[1],
        header.search_radius as u8,
    ]
}

// Byte j of the records of kind 3: after the last pixel a body is 0.
fn record_byte(pixels: &[u8], j: usize) -> u8
    ensures { result ≡ record_byte pixels.now j }
{
    let column = j % 33;
    if column == 0 {
        return 3;
    }
    let place = j / 33 * 32 + column - 1;
    pixels.get(place).copied().unwrap_or(0)
}

// Fills a buffer with records of kind 3.
fn put_pixels(pixels: &[u8], out: &mut [u8])
    ensures { out.new ≡ tab (length out.old) (record_byte pixels.now) }
{
    for (j, byte) in out.iter_mut().enumerate() {
        *byte = record_byte(pixels, j);
    }
}

// Fills a buffer of exactly its length with the stream of a frame.
pub(crate) fn put_frame(header: Header, pixels: &[u8], out: &mut [u8])
    requires { FieldsFit header × (length out.old ≡ length_of (length pixels.now)) }
    ensures { out.new ≡ frame_bytes header pixels.now }
{
    let head = head_of(header);
    let last = out.len() - 1;
    out[..22].copy_from_slice(&head);
    put_pixels(pixels, &mut out[22..last]);
    out[last] = 4;
}
