//! Programs of the tests.

/// A region whose original sums ten numbers to 55, with its fast version, and the exit with that sum.
pub const SUM: [u32; 15] = [
    0x7D00_0893, // li a7, 2000
    0x0000_0073, // ecall: opens the region
    0x0005_1E63, // bnez a0, fast
    0x0000_0513, // li a0, 0
    0x00A0_0293, // li t0, 10
    0x0055_0533, // add a0, a0, t0
    0xFFF2_8293, // addi t0, t0, -1
    0xFE02_9CE3, // bnez t0, -8
    0x00C0_006F, // j end
    0x0370_0513, // fast: li a0, 55
    0x0000_0293, // li t0, 0
    0x7D10_0893, // end: li a7, 2001
    0x0000_0073, // ecall: closes the region
    0x05D0_0893, // li a7, 93
    0x0000_0073, // ecall: exits
];

/// The same with a fast version that gives 54.
pub const WRONG_SUM: [u32; 15] = [
    0x7D00_0893,
    0x0000_0073,
    0x0005_1E63,
    0x0000_0513,
    0x00A0_0293,
    0x0055_0533,
    0xFFF2_8293,
    0xFE02_9CE3,
    0x00C0_006F,
    0x0360_0513, // fast: li a0, 54
    0x0000_0293,
    0x7D10_0893,
    0x0000_0073,
    0x05D0_0893,
    0x0000_0073,
];

/// Writes a byte of its own and exits with 1.
pub const WRITES: [u32; 7] = [
    0x0010_0513, // li a0, 1
    0x0001_05B7, // lui a1, 0x10
    0x0010_0613, // li a2, 1
    0x0400_0893, // li a7, 64
    0x0000_0073, // ecall: writes the first byte of the program
    0x05D0_0893, // li a7, 93
    0x0000_0073, // ecall: exits
];
