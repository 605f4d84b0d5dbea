//! What the definitions of an image say of a small one.

ghost use Rattle.std.specs.Prelude.{◌≡◌, None, Some, take};
ghost use Rattle.guest_model.specs.Image.{heap_of, initial_memory};
ghost use Rattle.guest_model.specs.ImageFault.{first_fault};
ghost use Rattle.guest_model.specs.ImageFault as image;
ghost use Rattle.guest_model.specs.Segment.{segments};
ghost use Rattle.elf32_loader.specs.SmallImage.{small_image, with_byte, with_word};

/// The small image has no fault, its first word and the byte behind its last one are those of memory, and the heap
/// starts on the next page.
pub fn small_image_is_loaded()
    ensures fault { first_fault small_image ≡ None }
    ensures heap { heap_of (segments small_image) ≡ record { start = 0x11000; size = 0x400000; brk = 0x11000 } }
    ensures first { initial_memory small_image (segments small_image) (heap_of (segments small_image)) 0x10000 ≡ Some 0x13 }
    ensures zero { initial_memory small_image (segments small_image) (heap_of (segments small_image)) 0x1000C ≡ Some 0 }
    ensures unmapped { initial_memory small_image (segments small_image) (heap_of (segments small_image)) 0xFFFF ≡ None }
{}

/// One changed byte makes each fault of the header.
pub fn changed_headers_are_faults()
    ensures short { first_fault (take 51 small_image) ≡ Some image.Short }
    ensures magic { first_fault (with_byte 3 0x47) ≡ Some image.Magic }
    ensures class { first_fault (with_byte 4 2) ≡ Some image.Class }
    ensures byte_order { first_fault (with_byte 5 2) ≡ Some image.ByteOrder }
    ensures version { first_fault (with_byte 6 0) ≡ Some image.Version }
    ensures kind { first_fault (with_byte 16 3) ≡ Some image.Kind }
    ensures machine { first_fault (with_byte 18 0x3E) ≡ Some image.Machine }
    ensures headers { first_fault (with_byte 44 65) ≡ Some image.Headers }
    ensures table { first_fault (take 83 small_image) ≡ Some image.Headers }
{}

/// One changed field makes each fault of a single segment; the limits themselves are none.
pub fn changed_segments_are_faults()
    ensures dynamic { first_fault (with_byte 52 2) ≡ Some (image.Dynamic 0) }
    ensures less_memory { first_fault (with_byte 72 11) ≡ Some (image.BadSegment 0) }
    ensures past_space { first_fault (with_word 60 0xFFFFFFF8) ≡ Some (image.BadSegment 0) }
    ensures stack { first_fault (with_word 60 0x7FEFFFFC) ≡ Some (image.StackOverlap 0) }
    ensures largest { first_fault (with_word 72 0x01F00000) ≡ None }
    ensures too_large { first_fault (with_word 72 0x01F00001) ≡ Some image.TooLarge }
    ensures misaligned { first_fault (with_word 24 0x10002) ≡ Some image.Entry }
    ensures last_word { first_fault (with_word 24 0x10FFC) ≡ None }
{}
