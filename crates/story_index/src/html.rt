//! A page of HTML that is being written. What a source says comes into it by `text` alone, which writes it so that it is shown as it is; markup is the page's
//! own, words of the program.
ghost use Rattle.std.specs.Prelude.{◌≡◌, ◌++◌, OnOk};
ghost use Rattle.story_index.specs.Escapes.{shown, shown_text};

use std::alloc::{AllocError, Global};

/// A page so far.
#[derive(Drop)]
pub struct Html {
    alloc: Global,
    bytes: Vec<u8>,
    /// Whether the page holds the source's lines, so that links lead to them.
    has_source: bool,
}

/// Adds a byte as it is to be written.
fn add_shown(bytes: &mut Vec<u8>, byte: u8) -> Result<(), AllocError>
    ensures { OnOk result (bytes.new.items ≡ bytes.old.items ++ shown byte) }
{
    if byte == b'&' {
        bytes.extend_from_slice(b"&amp;")?;
    } else if byte == b'<' {
        bytes.extend_from_slice(b"&lt;")?;
    } else if byte == b'>' {
        bytes.extend_from_slice(b"&gt;")?;
    } else if byte == b'"' {
        bytes.extend_from_slice(b"&quot;")?;
    } else {
        bytes.push(byte)?;
    }
    Ok(())
}

/// Adds a text of a source as it is to be written.
fn add_text(bytes: &mut Vec<u8>, text: &[u8]) -> Result<(), AllocError>
    ensures { OnOk result (bytes.new.items ≡ bytes.old.items ++ shown_text text.now) }
{
    let mut rest = text;
    while let [byte, after @ ..] = rest {
        add_shown(bytes, *byte)?;
        rest = after;
    }
    Ok(())
}

impl Html {
    /// An empty page.
    pub fn new(alloc: Global, has_source: bool) -> Html {
        Html {
            alloc,
            bytes: Vec::new(alloc),
            has_source,
        }
    }

    /// Adds markup, or words of the page's own.
    pub fn markup(&mut self, text: &'static str) -> Result<(), AllocError> {
        self.bytes.extend_from_slice(text.as_bytes())?;
        Ok(())
    }

    /// Adds what a source says, so that it is shown as it is.
    pub fn text(&mut self, text: &[u8]) -> Result<(), AllocError> {
        add_text(&mut self.bytes, text)
    }

    /// Adds a number.
    pub fn number(&mut self, number: i64) -> Result<(), AllocError> {
        let digits = format!(in self.alloc; "{number}")?;
        self.bytes.extend_from_slice(digits.as_bytes())?;
        Ok(())
    }

    /// Adds a count or a place.
    pub fn count(&mut self, count: usize) -> Result<(), AllocError> {
        self.number(i64::try_from(count).unwrap_or(i64::MAX))
    }

    /// Adds a name of the page's own: a letter for the sort, and a number.
    fn name(&mut self, sort: &'static str, number: usize) -> Result<(), AllocError> {
        self.markup(sort)?;
        self.count(number)
    }

    /// Opens an element that links lead to.
    pub fn open(
        &mut self,
        tag: &'static str,
        sort: &'static str,
        number: usize,
    ) -> Result<(), AllocError> {
        self.markup("<")?;
        self.markup(tag)?;
        self.markup(" id=\"")?;
        self.name(sort, number)?;
        self.markup("\">")
    }

    /// Opens a link.
    pub fn open_link(&mut self, sort: &'static str, number: usize) -> Result<(), AllocError> {
        self.markup("<a href=\"#")?;
        self.name(sort, number)?;
        self.markup("\">")
    }

    /// Adds a link that is shown as this.
    pub fn link(
        &mut self,
        sort: &'static str,
        number: usize,
        shown: &[u8],
    ) -> Result<(), AllocError> {
        self.open_link(sort, number)?;
        self.text(shown)?;
        self.markup("</a>")
    }

    /// Adds the line at which an entry stands in the source; `built in` where it stands at none.
    pub fn line(&mut self, line: Option<u32>) -> Result<(), AllocError> {
        self.markup(" <span class=\"line\">")?;
        match line {
            None => self.markup("built in")?,
            Some(line) => self.line_number(line)?,
        }
        self.markup("</span>")
    }

    /// Adds the number of a line, which leads to it where the page holds the source.
    pub fn line_number(&mut self, line: u32) -> Result<(), AllocError> {
        let is_linked = self.has_source;
        if is_linked {
            self.markup("<a href=\"#L")?;
            self.number(i64::from(line))?;
            self.markup("\">")?;
        }
        self.markup("line ")?;
        self.number(i64::from(line))?;
        if is_linked {
            self.markup("</a>")?;
        }
        Ok(())
    }

    /// Adds a heading of the second level that links lead to.
    pub fn heading(&mut self, name: &'static str, shown: &'static str) -> Result<(), AllocError> {
        self.markup("<h2 id=\"")?;
        self.markup(name)?;
        self.markup("\">")?;
        self.markup(shown)?;
        self.markup("</h2>\n")
    }

    /// The page's bytes.
    pub fn into_bytes(self) -> Vec<u8> {
        let Html { bytes, .. } = self;
        bytes
    }
}
