use std::alloc::{AllocError, Global};

/// Files by their names, of which each has one.
#[derive(Drop)]
pub struct NamedFiles {
    pub list: Vec<(String, Vec<u8>)>,
}

impl NamedFiles {
    pub fn new(alloc: Global) -> NamedFiles {
        NamedFiles {
            list: Vec::new(alloc),
        }
    }

    /// What a file holds; none where there is no such file.
    pub fn find(&self, name: &str) -> Option<&[u8]> {
        for file in self.list.iter() {
            if file.0.as_str() == name {
                return Some(file.1.as_slice());
            }
        }
        None
    }

    pub fn add(&mut self, alloc: Global, name: &str, bytes: Vec<u8>) -> Result<(), AllocError> {
        self.list.push((String::from_str(alloc, name)?, bytes))?;
        Ok(())
    }
}
