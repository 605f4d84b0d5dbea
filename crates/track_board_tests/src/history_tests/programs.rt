//! Programs of the tests.

/// A region whose original sums ten numbers to 55, with its fast version, and the exit with that sum.
pub const SUM: [u32; 15] = [
    0x7D00_0893, // li a7, 2000
    0x0000_0073, // ecall: opens the region
    0x0005_1E63, // bnez a0, fast
    0x0000_0513, // li a0, 0
    0x00A0_0293, // li t0, 10
    0x0055_0533, // add a0, a0, t0
    0xFFF2_8293, // addi t0, t0, -1
    0xFE02_9CE3, // bnez t0, -8
    0x00C0_006F, // j end
    0x0370_0513, // fast: li a0, 55
    0x0000_0293, // li t0, 0
    0x7D10_0893, // end: li a7, 2001
    0x0000_0073, // ecall: closes the region
    0x05D0_0893, // li a7, 93
    0x0000_0073, // ecall: exits
];

/// The same with a fast version that gives 54.
pub const WRONG_SUM: [u32; 15] = [
    0x7D00_0893,
    0x0000_0073,
    0x0005_1E63,
    0x0000_0513,
    0x00A0_0293,
    0x0055_0533,
    0xFFF2_8293,
    0xFE02_9CE3,
    0x00C0_006F,
    0x0360_0513,
    0x0000_0293,
    0x7D10_0893,
    0x0000_0073,
    0x05D0_0893,
    0x0000_0073,
];

/// The region with the fast version that gives 54, twice, and the exit.
pub const WRONG_SUMS: [u32; 28] = [
    0x7D00_0893,
    0x0000_0073,
    0x0005_1E63,
    0x0000_0513,
    0x00A0_0293,
    0x0055_0533,
    0xFFF2_8293,
    0xFE02_9CE3,
    0x00C0_006F,
    0x0360_0513,
    0x0000_0293,
    0x7D10_0893,
    0x0000_0073,
    0x7D00_0893,
    0x0000_0073,
    0x0005_1E63,
    0x0000_0513,
    0x00A0_0293,
    0x0055_0533,
    0xFFF2_8293,
    0xFE02_9CE3,
    0x00C0_006F,
    0x0360_0513,
    0x0000_0293,
    0x7D10_0893,
    0x0000_0073,
    0x05D0_0893,
    0x0000_0073,
];

/// A region that never closes: both versions exit inside it.
pub const NEVER_CLOSES: [u32; 4] = [
    0x7D00_0893, // li a7, 2000
    0x0000_0073, // ecall: opens the region
    0x05D0_0893, // li a7, 93
    0x0000_0073, // ecall: exits
];
