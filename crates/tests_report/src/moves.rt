// The moves that a scan must report, plainly computed by the definition of request #103 and with no table: a node is a beginning of a keyword,
// kept as that keyword's number and the beginning's length, and each child and each link is looked for among all the keywords.
use tests_plain::bytes::{less, plus};
use tests_plain::case;
use tests_plain::model::{chunk_at, chunk_size, chunks, flag, keyword_at, keyword_size, keywords};
use tests_plain::records::alike;

// ---- nodes

// The node of the first n bytes of keyword k, n at least 1. The root is 0.
fn node_of(k: usize, n: usize) -> usize {
    64 * (k % 16) + n % 64
}

fn length_of(node: usize) -> usize {
    node % 64
}

// Where keyword k's bytes stand in the model, and where a node's do.
fn letters(k: usize) -> usize {
    plus(keyword_at(k), 1)
}

fn letters_of(node: usize) -> usize {
    letters(node / 64)
}

// Keyword k begins with the n bytes at a place of the model, as they compare.
fn begins(m: &[u8], k: usize, at: usize, n: usize) -> bool {
    if keyword_size(m, k) < n {
        return false;
    }
    alike(flag(m), m, letters(k), m, at, n)
}

// The node of the n bytes at a place; 0 where they are none, or no keyword begins with them.
fn node_at(m: &[u8], at: usize, n: usize) -> usize {
    let words = keywords(m);
    for k in 0..words {
        if begins(m, k, at, n) {
            return node_of(k, n);
        }
    }
    0
}

// Where a node's failure link leads: its longest proper ending that is a node.
fn link(m: &[u8], node: usize) -> usize {
    let n = length_of(node);
    for i in 0..n {
        let left = less(n, plus(i, 1));
        let ending = node_at(m, plus(letters_of(node), less(n, left)), left);
        if ending != 0 {
            return ending;
        }
    }
    0
}

// Keyword k begins with a node's bytes and the byte at a place behind them.
fn goes_on(m: &[u8], k: usize, node: usize, at: usize) -> bool {
    let n = length_of(node);
    if keyword_size(m, k) <= n {
        return false;
    }
    if begins(m, k, letters_of(node), n) {
        return alike(flag(m), m, plus(letters(k), n), m, at, 1);
    }
    false
}

// A node's child by the byte at a place, 0 where it has none.
fn child(m: &[u8], node: usize, at: usize) -> usize {
    let words = keywords(m);
    for k in 0..words {
        if goes_on(m, k, node, at) {
            return node_of(k, plus(length_of(node), 1));
        }
    }
    0
}

// ---- moves

// A node, and 1,024 for each link followed to come to it. One link more, if the node is not the root and has no child by the byte.
fn follow(m: &[u8], step: usize, at: usize) -> usize {
    let node = step % 1024;
    if node == 0 {
        return step;
    }
    if child(m, node, at) != 0 {
        return step;
    }
    plus(plus(less(step, node), 1024), link(m, node))
}

// All links that are followed before the byte at a place: a node has at most 32 bytes, and its link fewer.
fn follow_all(m: &[u8], node: usize, at: usize) -> usize {
    let most: usize = 32;
    let mut step = node;
    for i in 0..most {
        let after = follow(m, step, at);
        if after == step {
            return step;
        }
        step = after;
    }
    step
}

// From the root: the links before each byte, and one move to the child or to stay at the root.
fn chunk_moves(m: &[u8], c: usize) -> usize {
    let n = chunk_size(m, c);
    let mut node: usize = 0;
    let mut moves: usize = 0;
    for i in 0..n {
        let at = plus(chunk_at(c), i);
        let step = follow_all(m, node, at);
        moves = plus(moves, plus(step / 1024, 1));
        node = child(m, step % 1024, at);
    }
    moves
}

// Of all chunks.
fn all_moves(m: &[u8]) -> usize {
    let n = chunks(m);
    let mut moves: usize = 0;
    for c in 0..n {
        moves = plus(moves, chunk_moves(m, c));
    }
    moves
}

// The moves of a model become those that its case has as due.
pub fn put_moves(f: &mut [u8], m: &[u8]) {
    case::put_moves(f, all_moves(m));
}

// ---- counting nodes

// The first n bytes of keyword k are a node that no keyword before it has.
fn is_first(m: &[u8], k: usize, n: usize) -> bool {
    if keywords(m) <= k {
        return false;
    }
    if keyword_size(m, k) < n {
        return false;
    }
    node_at(m, letters(k), n) == node_of(k, n)
}

// How many nodes there are, with the root.
pub(crate) fn nodes(m: &[u8]) -> usize {
    let most: usize = 512;
    let mut n: usize = 1;
    for t in 0..most {
        n = plus(n, is_first(m, t / 32, t % 32 + 1) as usize);
    }
    n
}
