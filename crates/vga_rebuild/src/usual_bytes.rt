//! The bytes that display memory mostly has.
ghost use Rattle.std.specs.Prelude.{◌<◌};

use vga_planes::Planes;

/// The index of the largest of some counts, the first one if there are several.
fn index_of_largest(counts: &[u32; 256]) -> u8 {
    let mut best = 0u8;
    for index in 0..=255u8 {
        if counts[index as usize] > counts[best as usize] {
            best = index;
        }
    }
    best
}

/// The byte that a plane has most often. Offsets that four divides are counted: the planes of text
/// and of 256 colours have a byte of the screen there.
fn usual_byte(planes: &Planes, plane: usize) -> u8
    requires { plane < 4 }
{
    let mut counts = [0u32; 256];
    for number in 0..16_384u16 {
        let byte = planes.byte(plane, 4 * number) as usize;
        counts[byte] = counts[byte].wrapping_add(1);
    }
    index_of_largest(&counts)
}

/// The byte that each plane has most often.
pub(crate) fn usual_bytes(planes: &Planes) -> [u8; 4] {
    [
        usual_byte(planes, 0),
        usual_byte(planes, 1),
        usual_byte(planes, 2),
        usual_byte(planes, 3),
    ]
}
