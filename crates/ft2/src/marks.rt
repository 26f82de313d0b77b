// Octets and blocks put into a mark buffer, one octet 00 or 01 a mark.
ghost use Rattle.std.specs.Prelude.{◌+◌, ◌*◌, ◌≤◌, [], ◌∷◌, length};
ghost use Rattle.formats.specs.Putting.{Put};
ghost use Rattle.ft2_laws.specs.Frames.{in_blocks, marks_of, octet_marks, with_check};

use checks::block::check_octet;
use checks::octet::octet_bits;

// A block has at most so many octets. The reader has its own, in the octets that it counts with.
pub(crate) const BLOCK: usize = 15;

// An octet, highest bit first.
pub(crate) fn put_octet(marks: &mut [u8], at: usize, octet: u8) -> usize
    requires { at + 8 ≤ length marks.old }
    ensures { Put at (octet_marks octet) marks.old result marks.new }
{
    marks[at..at + 8].copy_from_slice(&octet_bits(octet).map(u8::from));
    at + 8
}

// A block and its check octet.
pub(crate) fn put_block(marks: &mut [u8], at: usize, block: &[u8]) -> usize
    requires { at + 8 * (length block.now + 1) ≤ length marks.old }
    ensures { Put at (marks_of (with_check block.now)) marks.old result marks.new }
{
    let mut next = at;
    for octet in block {
        next = put_octet(marks, next, *octet);
    }
    put_octet(marks, next, check_octet(block))
}

// Octets cut into blocks of 15, the last possibly shorter, each with its check octet.
pub(crate) fn put_blocks(marks: &mut [u8], at: usize, octets: &[u8]) -> usize
    requires { at + length (marks_of (in_blocks octets.now)) ≤ length marks.old }
    ensures { Put at (marks_of (in_blocks octets.now)) marks.old result marks.new }
{
    let mut next = at;
    for block in octets.chunks(BLOCK) {
        next = put_block(marks, next, block);
    }
    next
}
