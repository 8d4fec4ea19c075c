// What a listener chooses from a bucket: distances of control pairs and entries, and lines.
ghost use Rattle.std.specs.Prelude.{◌≡◌, ◌≤◌, leb, drop, length};
ghost use Rattle.buckets.specs.Lengths.{bucket_lines_most};
ghost use Rattle.listener.specs.Listener.{tag_below, before, matching};
ghost use Rattle.listener.specs.Inner.OnReading.{chosen, first_chosen, tagged_lines};

use buckets::{Entry, Pair};

// The distance of the first control pair if its tag is printed and ours is at most it.
pub fn first_pair(tag: u64, pairs: &[Pair]) -> Option<u64>
    ensures { result ≡ first_chosen tag pairs.now }
{
    if pairs.is_empty() {
        return None;
    }
    let first = pairs[0];
    match first.tag {
        Some(own) if tag <= own => Some(first.distance),
        _ => None,
    }
}

// Whether a control pair's tag is printed and below ours.
fn is_below(pair: Pair, tag: u64) -> bool
    ensures { result ≡ tag_below pair.tag tag }
{
    match pair.tag {
        Some(own) => own < tag,
        None => false,
    }
}

// The distance of the first control pair behind the first one whose tag is below ours. A loop that breaks with the chosen distance,
// here and for the entries, is the form that the yard's contract names.
pub fn pair_below(tag: u64, pairs: &[Pair]) -> Option<u64>
    ensures { result ≡ chosen (λ p. tag_below p.tag tag) (λ p. p.distance) (drop 1 pairs.now) }
{
    let mut i = 1;
    let distance = loop {
        if pairs.len() <= i {
            break None;
        }
        let pair = pairs[i];
        if is_below(pair, tag) {
            break Some(pair.distance);
        }
        i += 1;
    };
    distance
}

// The distance of the first entry whose tag is at least ours.
pub fn entry_from(tag: u64, entries: &[Entry]) -> Option<u64>
    ensures { result ≡ chosen (λ e. leb tag e.tag) (λ e. e.distance) entries.now }
{
    let mut i = 0;
    let distance = loop {
        if entries.len() <= i {
            break None;
        }
        let entry = entries[i];
        if tag <= entry.tag {
            break Some(entry.distance);
        }
        i += 1;
    };
    distance
}

// How many lines come before the first one of our tag.
pub fn lines_before(tag: u64, tags: &[u64]) -> u64
    requires { length tags.now ≤ bucket_lines_most }
    ensures { result ≡ before tag (tagged_lines tags.now) }
{
    for (i, own) in tags.iter().enumerate() {
        if *own == tag {
            return i as u64;
        }
    }
    tags.len() as u64
}

// How many lines are of our tag.
pub fn lines_matching(tag: u64, tags: &[u64]) -> u64
    requires { length tags.now ≤ bucket_lines_most }
    ensures { result ≡ length (matching tag (tagged_lines tags.now)) }
{
    let mut found = 0;
    for own in tags {
        if *own == tag {
            found += 1;
        }
    }
    found
}
