//! Blocks of commands out of pieces of a stream.

ghost use Rattle.std.specs.Prelude.{◌<◌};

use case_desk::{Answer, cut, length_of};
use fs_frame::{Block, Blocks, Next};

/// Answers what is asked of a stream.
///
/// `cut SIZE TEXT` tells the command lines of a stream that comes in pieces of so many bytes, a bar behind each, and
/// what is said behind them. `new` begins a stream to which `feed TEXT` and `feeds COUNT TEXT` add a piece; `next`
/// tells what is handed out then, of a block its bytes and its parts; `header NAME` only the value of this name in it,
/// and `length` only how long its line and the block are.
pub(crate) fn tell_frames(blocks: &mut Blocks, rest: &str, answer: &mut Answer) {
    let (verb, rest) = cut(rest);
    match verb {
        "cut" => tell_cut(rest, answer),
        "new" => renew(blocks, answer),
        "feed" => feed(blocks, &answer.bytes_of(rest), answer),
        "feeds" => feed_counted(blocks, rest, answer),
        "next" => tell_next(blocks.next_block(), answer),
        "header" => tell_header(blocks.next_block(), rest.as_bytes(), answer),
        "length" => tell_length(blocks.next_block(), answer),
        _ => answer.line("no case"),
    }
}

fn renew(blocks: &mut Blocks, answer: &mut Answer) {
    match Blocks::new(answer.alloc()) {
        Ok(new) => *blocks = new,
        Err(memory) => answer.want(memory),
    }
}

fn feed(blocks: &mut Blocks, piece: &[u8], answer: &mut Answer) {
    let done = blocks.feed(piece);
    answer.note(done);
}

// Feeds `COUNT TEXT`, the text so many times.
fn feed_counted(blocks: &mut Blocks, rest: &str, answer: &mut Answer) {
    let mut piece = Vec::new(answer.alloc());
    answer.add_counted(rest, &mut piece);
    feed(blocks, &piece, answer);
}

fn tell_cut(rest: &str, answer: &mut Answer) {
    let (size, text) = cut(rest);
    let input = answer.bytes_of(text);
    match Blocks::new(answer.alloc()) {
        Ok(mut blocks) => tell_pieces(&mut blocks, length_of(size).max(1), &input, answer),
        Err(memory) => answer.want(memory),
    }
}

fn tell_pieces(blocks: &mut Blocks, size: usize, input: &[u8], answer: &mut Answer)
    requires { 0 < size }
{
    answer.begin();
    for piece in input.chunks(size) {
        feed(blocks, piece, answer);
        add_lines(blocks, piece.len(), answer);
    }
    answer.show(format_args!("{:?}", blocks.next_block()));
    answer.end();
}

// Adds the lines of the blocks that so many questions hand out.
fn add_lines(blocks: &mut Blocks, most: usize, answer: &mut Answer) {
    for _ in 0..most {
        if let Next::Block(block) = blocks.next_block() {
            answer.add(block.line());
            answer.put("|");
        }
    }
}

fn tell_next(next: Next<'_>, answer: &mut Answer) {
    match next {
        Next::Block(block) => tell_block(block, answer),
        next => answer.shown(next),
    }
}

fn tell_block(block: Block<'_>, answer: &mut Answer) {
    answer.pair("block", block.bytes());
    answer.pair("line", block.line());
    for (name, value) in block.headers() {
        answer.begin();
        answer.put("header ");
        answer.add(name);
        answer.put("=");
        answer.add(value);
        answer.end();
    }
    answer.pair("body", block.body());
}

fn tell_header(next: Next<'_>, name: &[u8], answer: &mut Answer) {
    let Next::Block(block) = next else {
        return answer.line("no block");
    };
    match block.header(name) {
        Some(value) => answer.pair("value", value),
        None => answer.line("no header"),
    }
}

fn tell_length(next: Next<'_>, answer: &mut Answer) {
    let Next::Block(block) = next else {
        return answer.line("no block");
    };
    let line = block.line().len();
    let whole = block.bytes().len();
    answer.told(format_args!("a line of {line} bytes in a block of {whole}"));
}
