// One line of a data bucket as its four numbers.
ghost use Rattle.std.specs.Prelude.{◌≡◌, ◌<◌, length};
ghost use Rattle.buckets.specs.Lengths.{bucket_length, bucket_lines_most};
ghost use Rattle.buckets.specs.Bucket.{spelled_line, read_bucket};
ghost use Rattle.buckets.specs.BucketLines.{bucket_line, line_bytes};

use super::lines::spelled_line;
use super::reader::read_into;
use super::{Bucket, Items, Kind, Line, Misprinted};

// Line i of a bucket, or nothing where it has no such line. Any bytes are answered, and any i.
pub fn line_of(bucket: &[u8], i: u64) -> Result<Option<Line>, Misprinted>
    ensures { result ≡ bucket_line i (read_bucket bucket.now) }
{
    let mut items = Items::new();
    let Some(frame) = read_into(bucket, &mut items) else {
        return Err(Misprinted);
    };
    match frame.kind {
        Kind::Data { .. } if i < items.tags.len() as u64 => Ok(Some(line_at(bucket, i as usize))),
        _ => Ok(None),
    }
}

// The line in the columns of line i.
#[tactic(auto, unfolding(crate::specs::BucketLines::line_bytes))]
fn line_at(bucket: &[u8], i: usize) -> Line
    requires { (length bucket.now ≡ bucket_length) × (i < bucket_lines_most) }
    ensures { result ≡ spelled_line (line_bytes bucket.now i) }
{
    let at = Bucket::LINES + Line::COLUMNS * i;
    let to = at + Line::COLUMNS;
    spelled_line(&bucket[at..to])
}
