use row_lines::{RowError, word};

/// Words or bytes of which one goes through a range.
#[derive(Clone, Copy)]
pub struct Pattern {
    values: [u16; 5],
    count: usize,
    /// Which of them goes through the range.
    place: usize,
    pub first: u16,
    pub last: u16,
    step: u16,
}

impl Pattern {
    /// Of a text: words or bytes, none of which is greater than `most`, and `FIRST-LAST` or `FIRST-LAST/STEP` in the
    /// place of one. It fails where the text has another form.
    pub fn of(text: &str, most: u16) -> Result<Pattern, RowError> {
        let mut pattern = Pattern {
            values: [0; 5],
            count: 0,
            place: 5,
            first: 0,
            last: 0,
            step: 1,
        };
        for token in text.split_whitespace() {
            let value = pattern.value_of(token)?;
            pattern.add(value, most)?;
        }
        if pattern.last > most || pattern.first > pattern.last || pattern.step == 0 {
            return Err(RowError::NoSuchLine);
        }
        Ok(pattern)
    }

    fn add(&mut self, value: u16, most: u16) -> Result<(), RowError> {
        match self.values.get_mut(self.count) {
            Some(place) if value <= most => {
                *place = value;
                self.count = self.count.wrapping_add(1);
                Ok(())
            }
            _ => Err(RowError::NoSuchLine),
        }
    }

    fn value_of(&mut self, token: &str) -> Result<u16, RowError> {
        match token.split_once('-') {
            Some((first, rest)) => {
                let (last, step) = rest.split_once('/').unwrap_or((rest, "1"));
                self.place = self.count;
                self.first = word(first)?;
                self.last = word(last)?;
                self.step = word(step)?;
                Ok(self.first)
            }
            None => word(token),
        }
    }

    /// Whether a value of the range is one of its steps.
    pub fn has(&self, value: u16) -> bool {
        value.wrapping_sub(self.first).checked_rem(self.step) == Some(0)
    }

    /// The words or bytes with this value in its place.
    pub fn with(&self, value: u16) -> [u16; 5] {
        let mut values = self.values;
        if let Some(place) = values.get_mut(self.place) {
            *place = value;
        }
        values
    }
}
