use facet_words::read_number;

/// The words of a line that are left, separated by single spaces.
#[derive(Drop)]
pub struct Words<'a> {
    rest: Option<&'a str>,
}

impl<'a> Words<'a> {
    /// All words of a line.
    pub fn of(line: &'a str) -> Words<'a> {
        Words { rest: Some(line) }
    }

    /// Whether no word is left.
    pub fn is_end(&self) -> bool {
        self.rest.is_none()
    }

    /// Takes the next word, if one is left.
    pub fn take(&mut self) -> Option<&'a str> {
        let rest = self.rest?;
        match rest.split_once(' ') {
            Some((word, after)) => {
                self.rest = Some(after);
                Some(word)
            }
            None => {
                self.rest = None;
                Some(rest)
            }
        }
    }

    /// Takes the next word if it is the given one.
    pub fn takes(&mut self, word: &str) -> bool {
        let before = self.rest;
        if self.take() == Some(word) {
            return true;
        }
        self.rest = before;
        false
    }

    /// Takes the next word if it is a mark and a number of at most nine digits.
    pub fn take_marked(&mut self, mark: char) -> Option<u32> {
        let before = self.rest;
        let number = match self.take() {
            Some(word) => behind_mark(word, mark),
            None => None,
        };
        if number.is_none() {
            self.rest = before;
        }
        number
    }

    /// Takes the next word, which is a number of at most nine digits.
    pub fn number(&mut self) -> Option<usize> {
        Some(read_number(self.take()?)? as usize)
    }
}

// The number behind a mark.
fn behind_mark(word: &str, mark: char) -> Option<u32> {
    read_number(word.strip_prefix(mark)?)
}
