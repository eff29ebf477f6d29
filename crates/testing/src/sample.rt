// Samples and levels, and what the buffers of starts and levels hold before a call.

// Stays: the C interface is lent plain numbers, so a place that a call left alone is told by a number. A level that is the mark would
// count as such a place; it is right in none of the cases here.
pub const START_MARK: u16 = 65535;

pub const LEVEL_MARK: i16 = -32669;

// A sample raised by 32,768, so that it is not negative.
pub fn raise(sample: i16) -> u64 {
    u64::from(sample.abs_diff(i16::MIN))
}

// The sample that a number below 65,536 is when it is raised.
// Stays: the way back from `raise`, which is not `lower` of two numbers.
pub fn lower(raised: u64) -> i16 {
    ((raised % 65536) as i32 - 32768) as i16
}
