/// How many bytes a page has. The page of an address is numbered by the quotient.
pub const PAGE_SIZE: u32 = 4096;
