// Inner: UTF-16 units as bytes, low byte first.

#![tactic(auto)]

ghost use Rattle.std.specs.Prelude.{◌≡◌, ◌+◌, ◌*◌, ◌/◌, ◌%◌, ◌≤◌, min, length, take};
ghost use Rattle.utf16.specs.Utf16.{utf16_bytes, utf16_units, LaidOver};

// Lays the bytes of units over the front of a buffer, as many units as fit, and answers how many bytes these are.
pub fn to_bytes(units: &[u16], bytes: &mut [u8]) -> usize
    ensures laid_over { LaidOver (utf16_bytes (take (length bytes.old / 2) units.now)) bytes.old bytes.new result }
    ensures upper_bound { (result ≤ length bytes.new) × (result ≡ length (take result bytes.new)) }
{
    let count = units.len().min(bytes.len() / 2);
    for i in 0..count {
        let [low, high] = units[i].to_le_bytes();
        bytes[2 * i] = low;
        bytes[2 * i + 1] = high;
    }
    2 * count
}

// Lays the units of bytes over the front of a buffer, as many as fit, and answers how many these are.
pub fn to_units(bytes: &[u8], units: &mut [u16]) -> usize
    ensures laid_over { LaidOver (take (length units.old) (utf16_units bytes.now)) units.old units.new result }
    ensures upper_bound { (result ≤ length units.new) × (result ≡ length (take result units.new)) }
{
    let count = (bytes.len() / 2).min(units.len());
    for i in 0..count {
        units[i] = u16::from_le_bytes([bytes[2 * i], bytes[2 * i + 1]]);
    }
    count
}
