// What paths become: files among all texts and files, and the lists of an edge.
use expansion::Texts;
use graph::File;

// The texts and files of a manifest as far as it is read.
#[derive(Drop)]
pub struct Known<'a> {
    pub texts: Texts<'a>,
    pub files: Vec<File>,
}

// The files of an edge, by number.
#[derive(Drop)]
pub struct Paths {
    pub outputs: Vec<usize>,
    pub reads: Vec<usize>,
    pub order_only: Vec<usize>,
    pub validations: Vec<usize>,
}
