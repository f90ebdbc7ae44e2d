//! Pictures of an inclusion proof: the way from the root down to an entry, and the digests of the proof beside it.

use ark_crh::ArrayHash;
use ark_trees::LogHasher;
use log_file::fault::Fault;
use std::alloc::Global;

// The digest of the entries from `start` up to `end`, some levels below the root.
#[derive(Clone, Copy)]
struct Node {
    depth: usize,
    start: usize,
    end: usize,
    digest: [u8; 32],
    // Whether it lies on the way, and is no digest of the proof.
    is_own: bool,
}

// What a level below the root is split into: the entries on the way, and those beside it.
#[derive(Clone, Copy)]
struct Level {
    start: usize,
    end: usize,
    beside_start: usize,
    beside_end: usize,
}

// The largest power of two below a count of at least two (RFC 9162, section 2.1).
fn split(count: usize) -> usize {
    let mut half: usize = 1;
    for _turn in 0..63 {
        if half < count.saturating_sub(half) {
            half = half.saturating_mul(2);
        }
    }
    half
}

// The levels from the root down to an entry.
fn levels_to(alloc: Global, size: usize, index: usize) -> Result<Vec<Level>, Fault> {
    let mut levels = Vec::new(alloc);
    let mut start: usize = 0;
    let mut end = size;
    for _turn in 0..64 {
        let count = end.saturating_sub(start);
        if count >= 2 {
            let middle = start.saturating_add(split(count));
            let level = if index < middle {
                Level {
                    start,
                    end: middle,
                    beside_start: middle,
                    beside_end: end,
                }
            } else {
                Level {
                    start: middle,
                    end,
                    beside_start: start,
                    beside_end: middle,
                }
            };
            levels.push(level)?;
            start = level.start;
            end = level.end;
        }
    }
    Ok(levels)
}

// The nodes of a picture, those of the lowest level first and the root last.
fn nodes_of(
    alloc: Global,
    size: usize,
    index: usize,
    leaf: &[u8; 32],
    path: &[[u8; 32]],
) -> Result<Vec<Node>, Fault> {
    let levels = levels_to(alloc, size, index)?;
    if levels.len() != path.len() {
        return Err(Fault::Length);
    }
    let mut nodes = Vec::new(alloc);
    let mut digest = *leaf;
    let mut depth = levels.len();
    for (level, beside) in levels.iter().rev().zip(path.iter()) {
        let own = Node {
            depth,
            start: level.start,
            end: level.end,
            digest,
            is_own: true,
        };
        let other = Node {
            depth,
            start: level.beside_start,
            end: level.beside_end,
            digest: *beside,
            is_own: false,
        };
        if own.start < other.start {
            nodes.push(other)?;
            nodes.push(own)?;
            digest = LogHasher::node(&digest, beside);
        } else {
            nodes.push(own)?;
            nodes.push(other)?;
            digest = LogHasher::node(beside, &digest);
        }
        depth = depth.saturating_sub(1);
    }
    nodes.push(Node {
        depth,
        start: 0,
        end: size,
        digest,
        is_own: true,
    })?;
    Ok(nodes)
}

/// Returns a picture as text, a line a digest: the root first, each level below the one above it. A digest on the way has a star,
/// one of the proof a plus; then come the entries that it is of, from the first one up to the one behind the last.
pub fn picture_text(
    alloc: Global,
    size: usize,
    index: usize,
    leaf: &[u8; 32],
    path: &[[u8; 32]],
) -> Result<Vec<u8>, Fault> {
    let nodes = nodes_of(alloc, size, index, leaf, path)?;
    let mut text = Vec::new(alloc);
    for node in nodes.iter().rev() {
        for _level in 0..node.depth {
            text.extend_from_slice(b"  ")?;
        }
        let mark = if node.is_own { '*' } else { '+' };
        let hex = hex::encode(alloc, node.digest.as_slice())?;
        let line = format!(in alloc; "{mark} {}..{} {hex}\n", node.start, node.end)?;
        text.extend_from_slice(line.as_bytes())?;
    }
    Ok(text)
}

/// Returns the same picture as an image (SVG 1.1): a row a digest, green on the way, yellow in the proof.
pub fn image_of(
    alloc: Global,
    size: usize,
    index: usize,
    leaf: &[u8; 32],
    path: &[[u8; 32]],
) -> Result<Vec<u8>, Fault> {
    let nodes = nodes_of(alloc, size, index, leaf, path)?;
    let height = nodes.len().saturating_mul(24).saturating_add(16);
    let mut image = Vec::new(alloc);
    let head = format!(in alloc;
        "<svg xmlns=\"http://www.w3.org/2000/svg\" width=\"1100\" height=\"{height}\" font-family=\"monospace\" font-size=\"13\">\n<rect width=\"1100\" height=\"{height}\" fill=\"#ffffff\"/>\n"
    )?;
    image.extend_from_slice(head.as_bytes())?;
    let mut y: usize = 20;
    for node in nodes.iter().rev() {
        let x = node.depth.saturating_mul(14).saturating_add(16);
        let below = y.saturating_add(4);
        let beside = x.saturating_add(14);
        let colour = if node.is_own { "#0b6e4f" } else { "#f3b61f" };
        let hex = hex::encode(alloc, node.digest.as_slice())?;
        let row = format!(in alloc;
            "<circle cx=\"{x}\" cy=\"{y}\" r=\"7\" fill=\"{colour}\"/><text x=\"{beside}\" y=\"{below}\">{}..{} {hex}</text>\n",
            node.start, node.end
        )?;
        image.extend_from_slice(row.as_bytes())?;
        y = y.saturating_add(24);
    }
    image.extend_from_slice(b"</svg>\n")?;
    Ok(image)
}
