// The text cases: a pool, an artist and a title of it, the rows of its comments, and how texts are written.
use texts::extent::Extent;
use texts::text::{TextOptions, TextRule};

pub struct TextCase {
    pub pool: &'static [u32],
    pub artist: Option<Extent>,
    pub title: Option<Extent>,
    pub rows: &'static [u32],
    pub options: TextOptions,
}

pub static CASES: [TextCase; 12] = [
    TextCase {
        pool: &[
            0x37, 0xE42A9, 0x7E, 0x100, 0x4D, 0xFFFF, 0xD7FF, 0x5B, 0x3F, 0x80, 0x100, 0x5A,
            0xEC09C, 0xFFFF, 0x80, 0x55071, 0x89495, 0x5D, 0x10FFFF, 0x1F, 0xCF9F, 0x38, 0x365A3,
            0x09, 0x80, 0x2D, 0xBF069, 0x7E,
        ],
        artist: Some(Extent {
            start: 0,
            length: 9,
        }),
        title: Some(Extent {
            start: 10,
            length: 9,
        }),
        rows: &[1, 7, 23, 21, 39, 3, 2, 21, 5, 1, 3, 3, 13, 57, 1, 1, 26, 0],
        options: TextOptions {
            rule: TextRule::Replace(73),
            empty_text: false,
            text_pad_counted: false,
        },
    },
    TextCase {
        pool: &[
            0x69, 0x9D9AA, 0x1F, 0xFF, 0x46, 0x00, 0xB1133, 0x9F, 0x6A, 0x7F, 0x69, 0x0A, 0x10000,
        ],
        artist: Some(Extent {
            start: 2,
            length: 1,
        }),
        title: Some(Extent {
            start: 3,
            length: 1,
        }),
        rows: &[1, 6, 8, 22, 10, 3, 4, 6, 7],
        options: TextOptions {
            rule: TextRule::D2,
            empty_text: false,
            text_pad_counted: true,
        },
    },
    TextCase {
        pool: &[
            0xD7FF, 0x10000, 0x22, 0x20, 0x7E, 0x50, 0x71, 0x43, 0x5F, 0x80, 0xA0, 0x3D, 0xFF,
            0x79, 0x100, 0x01, 0xD7FF, 0x0A, 0x65,
        ],
        artist: Some(Extent {
            start: 1,
            length: 8,
        }),
        title: Some(Extent {
            start: 10,
            length: 4,
        }),
        rows: &[1, 8, 3, 8, 42, 3, 1, 14, 3],
        options: TextOptions {
            rule: TextRule::Remove,
            empty_text: true,
            text_pad_counted: true,
        },
    },
    TextCase {
        pool: &[
            0x100, 0x10FFFF, 0xFC4BA, 0x7A, 0x80, 0x00, 0x20, 0x3A, 0x09, 0x65, 0x20, 0x77,
            0xB8180, 0x100, 0x9F, 0x44, 0x00,
        ],
        artist: Some(Extent {
            start: 0,
            length: 9,
        }),
        title: Some(Extent {
            start: 9,
            length: 2,
        }),
        rows: &[2024, 8, 17, 15, 3, 1, 0, 11, 5],
        options: TextOptions {
            rule: TextRule::D2,
            empty_text: false,
            text_pad_counted: true,
        },
    },
    TextCase {
        pool: &[
            0x7147C, 0x10FFFF, 0x80, 0x34, 0x22, 0x7C, 0x76, 0x00, 0x14969, 0xDAA9A, 0x40D5B,
            0x100, 0x0A, 0x7F, 0xD7FF,
        ],
        artist: Some(Extent {
            start: 2,
            length: 7,
        }),
        title: Some(Extent {
            start: 11,
            length: 4,
        }),
        rows: &[],
        options: TextOptions {
            rule: TextRule::Remove,
            empty_text: false,
            text_pad_counted: false,
        },
    },
    TextCase {
        pool: &[
            0x35, 0x80, 0x62, 0xFFFF, 0x9F, 0xE000, 0x77, 0x34, 0x78, 0x62, 0x57, 0x7F, 0x76, 0xA0,
            0x7F, 0x0A, 0xA5B8B, 0x00, 0x6A, 0x22, 0x9F,
        ],
        artist: Some(Extent {
            start: 1,
            length: 9,
        }),
        title: Some(Extent {
            start: 10,
            length: 4,
        }),
        rows: &[
            0, 0, 31, 0, 55, 1, 2, 14, 0, 2024, 2, 25, 5, 38, 0, 4, 16, 4,
        ],
        options: TextOptions {
            rule: TextRule::Remove,
            empty_text: false,
            text_pad_counted: true,
        },
    },
    TextCase {
        pool: &[
            0x20, 0x7F, 0xD7FF, 0x7F, 0x20, 0x7E, 0xE4C2F, 0x60, 0x0A, 0x20, 0xA0, 0x57, 0xFFFF,
            0x9E1BE, 0x1F, 0x10F5AB, 0x10000, 0x09, 0x74, 0x80, 0x52, 0xFF, 0x6B, 0x7C, 0x5A, 0x55,
            0x20, 0xFF, 0x80, 0x20, 0x10C300,
        ],
        artist: Some(Extent {
            start: 1,
            length: 3,
        }),
        title: None,
        rows: &[
            1, 3, 22, 22, 30, 0, 2, 6, 4, 1, 3, 14, 7, 48, 2, 2, 10, 6, 2024, 0, 26, 15, 59, 3, 4,
            16, 11, 1, 10, 13, 3, 2, 1, 0, 29, 0, 65535, 2, 20, 12, 8, 3, 4, 30, 0,
        ],
        options: TextOptions {
            rule: TextRule::Remove,
            empty_text: false,
            text_pad_counted: false,
        },
    },
    TextCase {
        pool: &[
            0x80, 0x5BE33, 0x80, 0x44, 0x66, 0xFF, 0xD7FF, 0xFFFF, 0xFF, 0x1F, 0x3D99, 0xFF, 0x9F,
            0x7C, 0x49,
        ],
        artist: Some(Extent {
            start: 0,
            length: 1,
        }),
        title: None,
        rows: &[2024, 3, 21, 23, 29, 3, 2, 4, 9],
        options: TextOptions {
            rule: TextRule::Remove,
            empty_text: true,
            text_pad_counted: false,
        },
    },
    TextCase {
        pool: &[
            0xDE252, 0x80, 0xA0, 0x20, 0x10000, 0x10000, 0x100, 0x100, 0x100, 0x20, 0x6F, 0x10000,
            0xA0, 0xA0, 0x7E, 0x26, 0x0A,
        ],
        artist: Some(Extent {
            start: 0,
            length: 7,
        }),
        title: Some(Extent {
            start: 8,
            length: 9,
        }),
        rows: &[],
        options: TextOptions {
            rule: TextRule::Replace(120),
            empty_text: true,
            text_pad_counted: true,
        },
    },
    TextCase {
        pool: &[
            0x1F, 0x10FFFF, 0x10000, 0x75, 0x9F, 0x31, 0xE60C6, 0x09, 0x39C4F, 0x7D, 0x7E, 0x09,
            0x1F, 0xD252D, 0x00, 0x0A, 0x2B, 0x7E, 0xFF, 0x20, 0xFF, 0xC58DB, 0x100,
        ],
        artist: None,
        title: Some(Extent {
            start: 1,
            length: 1,
        }),
        rows: &[
            1, 10, 30, 7, 54, 3, 2, 3, 4, 2024, 5, 13, 22, 21, 1, 1, 9, 7, 65535, 4, 11, 11, 13, 0,
            0, 18, 4,
        ],
        options: TextOptions {
            rule: TextRule::D2,
            empty_text: false,
            text_pad_counted: true,
        },
    },
    TextCase {
        pool: &[0x7A, 0x10000, 0xE000, 0x25, 0xE000],
        artist: None,
        title: Some(Extent {
            start: 2,
            length: 1,
        }),
        rows: &[2024, 3, 28, 18, 7, 3, 2, 3, 1],
        options: TextOptions {
            rule: TextRule::Remove,
            empty_text: true,
            text_pad_counted: false,
        },
    },
    TextCase {
        pool: &[
            0x1F, 0xE000, 0x37, 0x5F, 0x10B5D1, 0x43, 0x43DB, 0x3B, 0x00, 0x20, 0x20, 0x47, 0x80,
            0x1F, 0x9F, 0xD7FF, 0x44, 0x53, 0x64, 0x10A439, 0x1F, 0x1F, 0x10FFFF, 0x60, 0xE000,
            0x0A, 0xE000, 0xABE49, 0x10000, 0x68, 0x1F, 0xFF, 0xFF, 0x5F, 0x3F, 0x78, 0x20, 0xD7FF,
        ],
        artist: Some(Extent {
            start: 1,
            length: 3,
        }),
        title: None,
        rows: &[
            65535, 7, 25, 14, 28, 3, 4, 8, 10, 1, 6, 18, 19, 53, 1, 1, 18, 11, 0, 1, 31, 7, 30, 3,
            0, 29, 8, 2024, 3, 4, 8, 0, 3, 3, 37, 1, 65535, 0, 3, 8, 52, 1, 0, 38, 0,
        ],
        options: TextOptions {
            rule: TextRule::Remove,
            empty_text: true,
            text_pad_counted: false,
        },
    },
];
