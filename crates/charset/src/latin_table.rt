// The code point of each code from A0h to FFh that stands for a character by itself; 0 for none, as `Tables` has it:
// `point_of` makes an Option where an entry is read.
pub(crate) const UPPER: [u16; 96] = [
    // A0h to AFh
    160, 161, 162, 163, 36, 165, 0, 167, 0, 8216, 8220, 171, 8592, 8593, 8594, 8595,
    // B0h to BFh
    176, 177, 178, 179, 215, 181, 182, 183, 247, 8217, 8221, 187, 188, 189, 190, 191,
    // C0h to CFh
    0, 0, 0, 0, 0, 0, 0, 0, 0, 0, 0, 0, 0, 0, 0, 0,
    // D0h to DFh
    8213, 185, 174, 169, 8482, 9834, 172, 166, 0, 0, 0, 0, 8539, 8540, 8541, 8542,
    // E0h to EFh
    8486, 198, 208, 170, 294, 0, 306, 319, 321, 216, 338, 186, 222, 358, 330, 329,
    // F0h to FFh
    312, 230, 273, 240, 295, 305, 307, 320, 322, 248, 339, 223, 254, 359, 331, 173,
];
