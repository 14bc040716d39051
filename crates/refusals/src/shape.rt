// The shape of an array, as C gives it: its numbers are not tested yet.
// The shape of an array: the width, which is also the number of rows, the data disks, and the bytes
// of a cell.
#[repr(C)]
#[derive(Clone, Copy)]
pub struct Shape {
    pub width: usize,
    pub disks: usize,
    pub cell_size: usize,
}
