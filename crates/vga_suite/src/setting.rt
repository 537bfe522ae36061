//! What applies to the cases that follow.

use std::alloc::{AllocError, Global};

/// The folder of the files, the font file, and a text that precedes each text.
#[derive(Drop)]
pub struct Setting {
    folder: String,
    fonts: Vec<u8>,
    front: Vec<u8>,
}

impl Setting {
    /// The folder of the list at this path, an empty font file, and no preceding text.
    pub fn beside(alloc: Global, list: &str) -> Result<Setting, AllocError> {
        let (folder, _) = list.rsplit_once('/').unwrap_or((".", list));
        Ok(Setting {
            folder: String::from_str(alloc, folder)?,
            fonts: Vec::new(alloc),
            front: Vec::new(alloc),
        })
    }

    /// The path of the file with this name and this ending.
    pub fn path(&self, alloc: Global, name: &str, end: &str) -> Result<String, AllocError> {
        let folder = self.folder.as_str();
        format!(in alloc; "{folder}/{name}{end}")
    }

    /// The bytes of the font file.
    pub fn fonts(&self) -> &[u8] {
        self.fonts.as_slice()
    }

    /// Replaces the font file.
    pub fn set_fonts(&mut self, fonts: Vec<u8>) {
        self.fonts = fonts;
    }

    /// Replaces the preceding text.
    pub fn set_preceding_text(&mut self, front: Vec<u8>) {
        self.front = front;
    }

    /// The preceding text, followed by a text.
    pub fn text_after_preceding_text(
        &self,
        alloc: Global,
        text: &[u8],
    ) -> Result<Vec<u8>, AllocError> {
        let mut whole = Vec::from_slice(alloc, self.front.as_slice())?;
        whole.extend_from_slice(text)?;
        Ok(whole)
    }
}
