// The values that the definitions of specs/ and the code share. A struct or an enum here is a type there, under `specs.declared`.
#![tactic(auto)]

ghost use Rattle.std.specs.Prelude.{◌≡◌};
ghost use Rattle.spec.specs.Job.{limits};
ghost use Rattle.spec.specs.Merge.{span_contains};
ghost use Rattle.spec.specs.Refusal.{refusal_number};
ghost use Rattle.spec.specs.Script.{script_supports_letter_spacing};

// ---- the job

// A row may hold any byte, also one that is no kind, before the checks have read it, and the definitions of specs/ speak of document 01's numbers:
// mode, adjust, dominant, alignment, orientation, the flags and a font byte of 255 stay the numbers that they are in the record.

// A job as the code holds it: the writing mode, how many font rows it has, and where its lists and its chunks begin in the record.
#[derive(Clone, Copy)]
pub struct Job {
    pub mode: u8,
    pub fonts: usize,
    pub dx: usize,
    pub dy: usize,
    pub rotate: usize,
    pub chunks: usize,
}

// The largest counts that a job may have: bytes of a record, fonts, floats of a list (dx, dy, rotate), chunks, bytes of a text,
// spans of a chunk, shifts of a span, glyphs of a span; and the glyphs of a merged list.
#[derive(Clone, Copy)]
pub struct Limits {
    pub bytes: usize,
    pub fonts: usize,
    pub list: usize,
    pub chunks: usize,
    pub text: usize,
    pub spans: usize,
    pub shifts: usize,
    pub glyphs: usize,
    pub merged: usize,
}

impl Job {
    // The writing mode top to bottom; the other is left to right.
    pub const TOP_TO_BOTTOM: u8 = 1;

    pub const BYTES: usize = 65_536;

    pub const FONTS: usize = 16;

    pub const LIST: usize = 4_096;

    pub const CHUNKS: usize = 16;

    pub const TEXT: usize = 4_096;

    pub const SPANS: usize = 32;

    pub const SHIFTS: usize = 8;

    pub const GLYPHS: usize = 1_024;

    pub const MERGED: usize = 1_024;

    // The largest counts are the definitions' limits.
    pub fn limits() -> Limits
        ensures { result ≡ limits }
    {
        Limits {
            bytes: Job::BYTES,
            fonts: Job::FONTS,
            list: Job::LIST,
            chunks: Job::CHUNKS,
            text: Job::TEXT,
            spans: Job::SPANS,
            shifts: Job::SHIFTS,
            glyphs: Job::GLYPHS,
            merged: Job::MERGED,
        }
    }
}

// A font row, in font units (the Rust's ResolvedFont). `units` is units per em.
#[derive(Clone, Copy)]
pub struct Font {
    pub units: u16,
    pub ascent: i16,
    pub descent: i16,
    pub xheight: u16,
    pub underline: i16,
    pub thickness: u16,
    pub through: i16,
    pub subscript: i16,
    pub superscript: i16,
}

// A glyph row. index: byte index (byte_idx); length: cluster length (cluster_len); tag: ISO 15924 script tag;
// orientation: 0 sideways, 1 upright.
#[derive(Clone, Copy)]
pub struct Glyph {
    pub id: u32,
    pub index: u16,
    pub length: u8,
    pub dx: i32,
    pub dy: i32,
    pub width: i32,
    pub font: u8,
    pub tag: u32,
    pub orientation: u8,
}

// A span without its shifts and glyphs. letter, word: letter and word spacing; fixed: the length flag; length: text length (the target).
#[derive(Clone, Copy)]
pub struct Span {
    pub start: u16,
    pub end: u16,
    pub font: u8,
    pub size: f32,
    pub letter: f32,
    pub word: f32,
    pub fixed: u8,
    pub length: f32,
    pub adjust: u8,
    pub dominant: u8,
    pub alignment: u8,
    pub decorations: u8,
}

impl Span {
    // The font byte of a span with no font.
    pub const NO_FONT: u8 = 255;
}

// The span covers byte index `index`.
pub fn span_contains(span: Span, index: u32) -> bool
    ensures { result ≡ span_contains span index }
{
    (span.start as u32 <= index) & (index < span.end as u32)
}

// How far a character of UTF-8 has been read: it expects so many more bytes, of which the next lies between two bounds.
// No Option of three numbers, since the definitions speak of both cases by these names.
#[derive(Clone, Copy)]
pub enum Utf8State {
    Malformed,
    Expecting(u8, u8, u8),
}

// ---- a refusal

// Why a job is refused. The numbers of document 01 are 1 to 10, in this order.
#[derive(Clone, Copy, PartialEq, Eq, Debug)]
pub enum Refusal {
    BadLength,
    BadVersion,
    BadCount,
    BadField,
    BadText,
    BadSpan,
    MergePastEnd,
    TooManyGlyphs,
    NoWidth,
    NoRoom,
}

// Its number.
impl From<Refusal> for u8 {
    ghost from_gives = { λ refusal number. number ≡ refusal_number refusal };

    fn from(refusal: Refusal) -> u8 {
        match refusal {
            Refusal::BadLength => 1,
            Refusal::BadVersion => 2,
            Refusal::BadCount => 3,
            Refusal::BadField => 4,
            Refusal::BadText => 5,
            Refusal::BadSpan => 6,
            Refusal::MergePastEnd => 7,
            Refusal::TooManyGlyphs => 8,
            Refusal::NoWidth => 9,
            Refusal::NoRoom => 10,
        }
    }
}

// ---- baselines, each in the order of source document 001

#[derive(Clone, Copy)]
pub enum BaselineShift {
    Baseline,
    Subscript,
    Superscript,
    Number(f32),
}

#[derive(Clone, Copy)]
pub enum DominantBaseline {
    Auto,
    UseScript,
    NoChange,
    ResetSize,
    Ideographic,
    Alphabetic,
    Hanging,
    Mathematical,
    Central,
    Middle,
    TextAfterEdge,
    TextBeforeEdge,
}

#[derive(Clone, Copy)]
pub enum AlignmentBaseline {
    Auto,
    Baseline,
    BeforeEdge,
    TextBeforeEdge,
    Middle,
    Central,
    AfterEdge,
    TextAfterEdge,
    Ideographic,
    Alphabetic,
    Hanging,
    Mathematical,
}

// ---- the layout

// A cluster (the Rust's GlyphCluster): its byte index, the script tag and orientation of its first glyph, the place of its covering span,
// its glyphs in the merged list (the place of the first, and how many), its marks, and its floats.
// spacing: length spacing (text_length_spacing); shift x and shift y are the steps of its transform.
#[derive(Clone, Copy)]
pub struct Cluster {
    pub index: u32,
    pub tag: u32,
    pub upright: bool,
    pub span: u32,
    pub from: u32,
    pub count: u32,
    pub relative: bool,
    pub scaled: bool,
    pub rotated: bool,
    pub collapsed: bool,
    pub width: f32,
    pub advance: f32,
    pub spacing: f32,
    pub ascent: f32,
    pub descent: f32,
    pub nudge: f32,
    pub scale: f32,
    pub x: f32,
    pub y: f32,
    pub angle: f32,
}

impl Cluster {
    // A row of a list that no cluster has been put into. A constant, and no `Default`, since arrays are filled with it.
    pub const BLANK: Cluster = Cluster {
        index: 0,
        tag: 0,
        upright: false,
        span: 0,
        from: 0,
        count: 0,
        relative: false,
        scaled: false,
        rotated: false,
        collapsed: false,
        width: 0.0,
        advance: 0.0,
        spacing: 0.0,
        ascent: 0.0,
        descent: 0.0,
        nudge: 0.0,
        scale: 0.0,
        x: 0.0,
        y: 0.0,
        angle: 0.0,
    };
}

// A decoration run (the Rust's DecorationSpan): the place of its first cluster in the chunk, and its width.
#[derive(Clone, Copy)]
pub struct Run {
    pub first: usize,
    pub width: f32,
}

// The pen, or a chunk's origin.
#[derive(Clone, Copy)]
pub struct Point {
    pub x: f32,
    pub y: f32,
}

// ---- scripts

// How many scripts take no letter spacing.
const UNSPACED_TAGS: usize = 17;

// Their ISO 15924 tags, four bytes each.
pub const UNSPACED: [u32; UNSPACED_TAGS] = [
    0x4172_6162, // Arab
    0x5379_7263, // Syrc
    0x4e6b_6f6f, // Nkoo
    0x4d61_6e69, // Mani
    0x5068_6c70, // Phlp
    0x4d61_6e64, // Mand
    0x4d6f_6e67, // Mong
    0x5068_6167, // Phag
    0x4465_7661, // Deva
    0x4265_6e67, // Beng
    0x4775_7275, // Guru
    0x4d6f_6469, // Modi
    0x5368_7264, // Shrd
    0x5379_6c6f, // Sylo
    0x5469_7268, // Tirh
    0x4f67_616d, // Ogam
    0x526f_6867, // Rohg
];

// The script takes letter spacing: its tag is not in the table.
pub fn script_supports_letter_spacing(tag: u32) -> bool
    ensures { result ≡ script_supports_letter_spacing tag }
{
    !UNSPACED.contains(&tag)
}
