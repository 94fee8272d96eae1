use labelled_trees::Tree;
use presentation_text::write_number;
use std::alloc::AllocError;

/// Writes a tree as `0(1,0(2,3))`: a vertex by the number of its generator or label.
pub fn write_plain(tree: &Tree, out: &mut Vec<u8>) -> Result<(), AllocError> {
    match tree {
        Tree::Leaf(number) => write_number(u64::from(*number), out),
        Tree::Node(label, inputs) => {
            write_number(u64::from(*label), out)?;
            let mut before = b'(';
            for input in inputs.as_slice() {
                out.push(before)?;
                write_plain(input, out)?;
                before = b',';
            }
            out.push(b')')?;
            Ok(())
        }
    }
}

/// Writes a number with a blank before it.
pub fn write_next(number: u64, out: &mut Vec<u8>) -> Result<(), AllocError> {
    out.push(b' ')?;
    write_number(number, out)
}

/// Writes numbers in a line, with a blank between two.
pub fn write_line(numbers: &[u8], out: &mut Vec<u8>) -> Result<(), AllocError> {
    for (at, number) in numbers.iter().enumerate() {
        if at > 0 {
            out.push(b' ')?;
        }
        write_number(u64::from(*number), out)?;
    }
    out.push(b'\n')?;
    Ok(())
}
