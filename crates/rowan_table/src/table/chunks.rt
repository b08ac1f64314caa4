//! A walk over the chunks of a slice of text: the texts of the tokens in a node, cut at a range. It
//! takes no memory.
ghost use Rattle.std.specs.Prelude.{◌≡◌, ◌≤◌, ◌∷◌, [], true, false, IfSome, IfNone, MatchOption};
ghost use Rattle.rowan_table.specs.Chunks.{remaining_leaves, IsTokenInside, MayCut, IsWalk};
ghost use Rattle.rowan_table.specs.Chunks.{remaining_chunks, span_of, bytes_passed};
ghost use Rattle.rowan_table.specs.SyntaxText.{meets, common_part};
ghost use Rattle.rowan_table.specs.TablePass.{StandsInside};
ghost use Rattle.rowan_table.specs.TableView.{path_at};

use super::Table;
use super::slice::Slice;
use rowan_green::text::TextSize;
use std::cmp;

/// A walk over the chunks of a slice, and how far it has come: to an element, or to the end, and to
/// where the texts that are left start. The next token is looked for from that element on when the
/// next chunk is asked for. It begins where a search going down finds no token that ends before the
/// slice passed over.
#[derive(Clone, Copy)]
pub struct ChunkWalk {
    pub slice: Slice,
    pub next: Option<usize>,
    pub at: u32,
}

impl ChunkWalk {
    /// How many bytes of the slice stand before the texts that are left.
    pub fn passed(&self) -> u32
        ensures { result ≡ bytes_passed self.now }
    {
        self.at.saturating_sub(self.slice.start)
    }
}

// What a text, which starts at an offset, has in common with a slice, if they meet.
fn part_in(text: &str, at: u32, slice: Slice) -> Option<&str>
    requires order { slice.start ≤ slice.end }
    requires start { MayCut text.now at slice.start }
    requires end { MayCut text.now at slice.end }
    ensures { let range = span_of slice in MatchOption result (meets range at text.now ≡ false)
        (λ part. (meets range at text.now ≡ true) × (part.now ≡ common_part range at text.now)) }
{
    let at = at as usize;
    let end = slice.end as usize;
    if end < at {
        return None;
    }
    let from = (slice.start as usize).saturating_sub(at);
    if text.len() < from {
        return None;
    }
    let to = cmp::min(end - at, text.len());
    Some(&text[from..to])
}

impl Table {
    // The next element behind a token, inside the element at `top`.
    fn next_inside(&self, number: usize, top: usize) -> Option<usize>
        requires { IsTokenInside self.now top number }
        ensures left { remaining_leaves self.now top (Some number)
            ≡ path_at self.now number ∷ remaining_leaves self.now top result }
        ensures place { IfSome result (StandsInside self.now top) }
    {
        self.step_on(number, top)
    }

    /// The next chunk of a walk.
    pub fn next_chunk(&self, walk: &mut ChunkWalk) -> Option<&str>
        requires { IsWalk self.now walk.old }
        ensures walk { IsWalk self.now walk.new }
        ensures next { MatchOption result (remaining_chunks self.now walk.old ≡ [])
            (λ chunk. remaining_chunks self.now walk.old
            ≡ chunk.now ∷ remaining_chunks self.now walk.new) }
        ensures left { IfNone result (remaining_chunks self.now walk.new ≡ []) }
    {
        while let Some(next) = walk.next {
            let at = walk.at;
            let end = walk.slice.end;
            if end < at {
                return None;
            }
            let top = walk.slice.node;
            let Some(number) = self.token_from(next, top) else {
                walk.next = None;
                return None;
            };
            let text = self.token(number).text();
            let len = u32::from(TextSize::of(text));
            walk.at = at + len;
            walk.next = self.next_inside(number, top);
            if let Some(chunk) = part_in(text, at, walk.slice) {
                return Some(chunk);
            }
        }
        None
    }
}
