// Floats as a line gives them, by their bits, and the low bits of a number. The two widths are no plainer as one function:
// it would take what is a NaN, and how bits become a float, from its caller.

// The float of a pattern; of a NaN's, a NaN.
pub fn single(bits: u32) -> f32 {
    if 0x7F80_0000 < bits % 0x8000_0000 {
        0.0 / 0.0
    } else {
        f32::from_bits(bits)
    }
}

// The float of 64 bits of a pattern; of a NaN's, a NaN.
pub fn double(bits: u64) -> f64 {
    if 0x7FF0_0000_0000_0000 < bits % 0x8000_0000_0000_0000 {
        0.0 / 0.0
    } else {
        f64::from_bits(bits)
    }
}

// The low 16 bits of a number.
pub fn low16(n: u64) -> u16 {
    (n % 0x1_0000) as u16
}

// The low 32 bits of a number.
pub fn low32(n: u64) -> u32 {
    (n % 0x1_0000_0000) as u32
}
