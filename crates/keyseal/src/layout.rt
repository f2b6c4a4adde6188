// The structs that C shares, laid out as C lays them out.

/// The numbers of a set as a caller proposes them; the check lengths go beside them.
#[repr(C)]
#[derive(Clone, Copy)]
pub struct Numbers {
    pub n: u16,
    pub h: u16,
    pub qb: u16,
    pub pb: u16,
    pub tb: u16,
    pub kappa: u16,
    pub f: u16,
    pub block: bool,
}

/// What the numbers of a lawful set tell.
#[repr(C)]
#[derive(Clone, Copy)]
pub struct Facts {
    pub q: u32,
    pub p: u32,
    pub t: u32,
    pub symbols: u32,
    pub message_len: u32,
    pub key_len: u32,
    pub parcel_len: u32,
    pub bound: u32,
    pub line_left: u32,
    pub line_right: u32,
    pub below_line: bool,
}

/// A place of a rack: in use with these coins, or empty, and then the bytes count for nothing.
// Kept: C has no Option, so a flag stands beside the coins.
#[repr(C)]
#[derive(Clone, Copy)]
pub struct Place {
    pub held: bool,
    pub coins: [u8; 96],
}
