//! The sums so far, and where in a record the next byte stands.
ghost use Rattle.std.specs.Prelude.{◌≡◌, ◌≤◌, ◌<◌, ◌==◌, ◌&&◌, nat_lt, length, take};
ghost use Rattle.sf_record_sums.specs.Steps.{added_up, after, begun, bump, counted, headed, judged, plain_step, shifted, start, step};

use sf_record::Summary;

// The tags of the records that are counted.
const REPL: u32 = 0x5245_504c;

const VSYN: u32 = 0x5653_594e;

const COMM: u32 = 0x434f_4d4d;

const FRAM: u32 = 0x4652_414d;

const FRAD: u32 = 0x4652_4144;

const HOLD: u32 = 0x484f_4c44;

const STUK: u32 = 0x5354_554b;

// The sums so far, and the place in the record that is being written.
#[derive(Clone, Copy)]
pub(crate) struct Progress {
    pub(crate) summary: Summary,
    // How many bytes of the head came.
    pub(crate) head: u32,
    // The tag, once it came.
    pub(crate) tag: u32,
    // The bytes so far of the number that is being read.
    pub(crate) number: u32,
    // How many bytes come before those that are needed, how many of pixels and of a result come then, and
    // how many to the end of the record.
    pub(crate) skip: u32,
    pub(crate) pixels: u32,
    pub(crate) result: u32,
    pub(crate) tail: u32,
}

/// At the start of a record.
pub(crate) fn at_start(summary: Summary) -> Progress
    ensures { result ≡ start summary }
{
    Progress {
        summary,
        head: 0,
        tag: 0,
        number: 0,
        skip: 0,
        pixels: 0,
        result: 0,
        tail: 0,
    }
}

/// A sum of 64 bits, from 0 on again behind the greatest number.
fn sum_of(before: u64, more: u64) -> u64
    ensures { result ≡ bump before more }
{
    before.wrapping_add(more)
}

/// A number of four bytes with one more byte behind it; the first byte goes.
fn with_byte(number: u32, byte: u8) -> u32
    ensures { result ≡ shifted number byte }
{
    number.wrapping_mul(256).wrapping_add(u32::from(byte))
}

/// The sums, with a record of this tag and length.
fn with_record(tag: u32, length: u32, summary: Summary) -> Summary
    ensures { result ≡ counted tag length summary }
{
    if tag == REPL {
        Summary {
            replies: sum_of(summary.replies, 1),
            ..summary
        }
    } else if tag == VSYN {
        Summary {
            vsyncs: sum_of(summary.vsyncs, 1),
            ..summary
        }
    } else if tag == COMM {
        Summary {
            commits: sum_of(summary.commits, 1),
            ..summary
        }
    } else if tag == FRAM || tag == FRAD {
        Summary {
            frames: sum_of(summary.frames, 1),
            ..summary
        }
    } else if tag == HOLD {
        Summary {
            held: sum_of(summary.held, u64::from(length.saturating_sub(4) / 24)),
            ..summary
        }
    } else if tag == STUK {
        Summary {
            stuck: sum_of(summary.stuck, u64::from(length.saturating_sub(4) / 8)),
            ..summary
        }
    } else {
        summary
    }
}

/// Behind the head of a record.
fn behind_head(tag: u32, length: u32, summary: Summary) -> Progress
    ensures { result ≡ begun tag length summary }
{
    let counted = at_start(with_record(tag, length, summary));
    if tag == COMM {
        Progress {
            skip: 8,
            result: 4,
            tail: length.saturating_sub(12),
            ..counted
        }
    } else if tag == FRAM {
        Progress {
            skip: 4,
            pixels: length.saturating_sub(4),
            ..counted
        }
    } else if tag == FRAD {
        Progress {
            skip: 8,
            pixels: length.saturating_sub(8),
            ..counted
        }
    } else {
        Progress {
            tail: length,
            ..counted
        }
    }
}

/// One byte of a head.
fn head_byte(progress: Progress, byte: u8) -> Progress
    ensures { result ≡ headed progress byte }
{
    let number = with_byte(progress.number, byte);
    if progress.head == 3 {
        Progress {
            head: 4,
            tag: number,
            number: 0,
            ..progress
        }
    } else if progress.head < 7 {
        Progress {
            head: progress.head + 1,
            number,
            ..progress
        }
    } else {
        behind_head(progress.tag, number, progress.summary)
    }
}

/// One byte of the result of a commit.
fn result_byte(progress: Progress, byte: u8) -> Progress
    ensures { result ≡ judged progress byte }
{
    let number = with_byte(progress.number, byte);
    if progress.result > 1 {
        Progress {
            result: progress.result - 1,
            number,
            ..progress
        }
    } else {
        let rejected = sum_of(progress.summary.rejected, if number == 0 { 0 } else { 1 });
        let summary = Summary {
            rejected,
            ..progress.summary
        };
        Progress {
            summary,
            result: 0,
            number: 0,
            ..progress
        }
    }
}

/// One byte, where it is none of pixels.
fn one_byte(progress: Progress, byte: u8) -> Progress
    ensures { result ≡ plain_step progress byte }
{
    if progress.skip > 0 {
        Progress {
            skip: progress.skip - 1,
            ..progress
        }
    } else if progress.result > 0 {
        result_byte(progress, byte)
    } else if progress.tail > 0 {
        Progress {
            tail: progress.tail - 1,
            ..progress
        }
    } else {
        head_byte(progress, byte)
    }
}

/// The sum with the bytes.
fn with_bytes(before: u64, bytes: &[u8]) -> u64
    ensures { result ≡ added_up before bytes.now }
{
    let mut sum = before;
    for byte in bytes {
        sum = sum_of(sum, u64::from(*byte));
    }
    sum
}

/// Bytes of pixels.
fn pixel_bytes(progress: Progress, bytes: &[u8]) -> Progress
    requires skipped { progress.skip ≡ 0 }
    requires within { length bytes.now ≤ progress.pixels }
    ensures { result ≡ after progress bytes.now }
{
    let pixel_sum = with_bytes(progress.summary.pixel_sum, bytes);
    let summary = Summary {
        pixel_sum,
        ..progress.summary
    };
    Progress {
        summary,
        pixels: progress.pixels - bytes.len() as u32,
        ..progress
    }
}

/// Whether a byte of pixels comes next.
fn is_at_pixels(progress: Progress) -> bool
    ensures { result ≡ (progress.skip == 0) && nat_lt 0 progress.pixels }
{
    progress.skip == 0 && progress.pixels > 0
}

/// The progress after the first of these bytes, and how many: all that are pixels, or one.
fn first_bytes(progress: Progress, bytes: &[u8]) -> (Progress, usize)
    requires some { 0 < length bytes.now }
    ensures some { 0 < result.1 }
    ensures within { result.1 ≤ length bytes.now }
    ensures after { result.0 ≡ after progress (take result.1 bytes.now) }
{
    if is_at_pixels(progress) {
        let count = bytes.len().min(progress.pixels as usize);
        (pixel_bytes(progress, &bytes[..count]), count)
    } else {
        (one_byte(progress, bytes[0]), 1)
    }
}

/// The progress after these bytes.
pub(crate) fn advanced(progress: Progress, piece: &[u8]) -> Progress
    ensures { result ≡ after progress piece.now }
{
    let mut progress = progress;
    let mut done = 0;
    while done < piece.len() {
        let (next, count) = first_bytes(progress, &piece[done..]);
        progress = next;
        done += count;
    }
    progress
}
