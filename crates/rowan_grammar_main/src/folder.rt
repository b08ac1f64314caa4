//! The folder of a crate, and the files in it that a grammar gives.
use anyhow::{Context, Result};
use rowan_grammar::File;
use std::fs;
use std::path::{Path, PathBuf};

/// What a new text has behind its file's name before it is put in place.
const NEW: &str = ".rowan_grammar";

/// The folder of a crate.
#[derive(Clone, Copy)]
pub struct Folder<'a> {
    pub rt: &'a HostRuntime,
    pub name: &'a str,
}

impl Folder<'_> {
    fn path(&self, file: &File, end: &str) -> Result<PathBuf> {
        let name = format!(in self.rt.alloc(); "{}{end}", file.path)?;
        let path = Path::new(self.name).join(self.rt.alloc(), name.as_str())?;
        Ok(path)
    }

    /// The texts of the files; nothing where there is none.
    pub fn old_texts(&self, files: &[File]) -> Result<Vec<String>> {
        let mut texts = Vec::new(self.rt.alloc());
        for file in files.iter() {
            let text = self
                .old_text(file)
                .context(format_args!("reading {}/{}", self.name, file.path))?;
            texts.push(text)?;
        }
        Ok(texts)
    }

    fn old_text(&self, file: &File) -> Result<String> {
        let path = self.path(file, "")?;
        match fs::read_to_string(self.rt, path.as_path()) {
            Ok(text) => Ok(text),
            Err(error) if error.kind() == std::io::ErrorKind::NotFound => {
                Ok(String::new(self.rt.alloc()))
            }
            Err(error) => Err(error.into()),
        }
    }

    /// Puts these files in the place of old ones, and removes those that have no text. No file is
    /// replaced where one cannot be written.
    pub fn replace(&self, files: &[&File]) -> Result<()> {
        let written = self.write_new(files);
        if written.is_err() {
            self.remove_new(files);
        }
        written?;
        for file in files.iter() {
            self.put(file)?;
        }
        Ok(())
    }

    /// Writes the new texts beside the files.
    fn write_new(&self, files: &[&File]) -> Result<()> {
        for file in files.iter() {
            if let Some(text) = &file.text {
                let path = self.path(file, NEW)?;
                fs::write(self.rt, path.as_path(), text.as_str()).context(format_args!(
                    "writing {}/{}",
                    self.name, file.path
                ))?;
            }
        }
        Ok(())
    }

    /// Removes what was written beside the files.
    fn remove_new(&self, files: &[&File]) {
        for file in files.iter() {
            if let Ok(path) = self.path(file, NEW) {
                // Of those behind the one that could not be written nothing is there.
                let _ = fs::remove_file(self.rt, path.as_path());
            }
        }
    }

    /// Puts the new text of a file in its place, or removes the file if it has none.
    fn put(&self, file: &File) -> Result<()> {
        let path = self.path(file, "")?;
        let shown = format!(in self.rt.alloc(); "{}/{}", self.name, file.path)?;
        if file.text.is_none() {
            fs::remove_file(self.rt, path.as_path()).context(format_args!("removing {shown}"))?;
            println!(self.rt; "removed {shown}")?;
            return Ok(());
        }
        let new = self.path(file, NEW)?;
        fs::rename(self.rt, new.as_path(), path.as_path()).context(format_args!(
            "replacing {shown}"
        ))?;
        println!(self.rt; "wrote {shown}")?;
        Ok(())
    }
}

/// Whether an old text is not of this grammar, and stands where a new one is to be.
pub fn is_in_the_way(file: &File, old: &str) -> bool {
    file.text.is_some() && !old.is_empty() && !old.starts_with(file.mark.as_str())
}

/// Whether an old text is not what the grammar gives: other than the new one, or one of this
/// grammar where it gives none.
pub fn is_other(file: &File, old: &str) -> bool {
    match &file.text {
        Some(text) => text.as_str() != old,
        None => old.starts_with(file.mark.as_str()),
    }
}
