// Sums over what was handed out.

// Sums over numbers: plain, and of the plain ones, so that the order counts.
#[derive(Clone, Copy, Default)]
pub struct Sums {
    pub plain: u64,
    pub weighted: u64,
}

impl Sums {
    // Adds a number.
    fn add(&mut self, value: u64) {
        self.plain = self.plain.wrapping_add(value);
        self.weighted = self.weighted.wrapping_add(self.plain);
    }

    // Adds a payload: its length and first byte, or with `whole` its length and every byte.
    // Internal: serves the benchmark, which states nothing of it.
    pub fn add_payload(&mut self, bytes: &[u8], whole: bool) {
        self.add(bytes.len() as u64);
        if whole {
            for &byte in bytes {
                self.add(byte.into());
            }
        } else if let Some(&byte) = bytes.first() {
            self.add(byte.into());
        }
    }
}
