// What is counted of the answers to a large input.
ghost use Rattle.std.specs.Prelude.{◌≡◌};
ghost use Rattle.dav_bench.specs.Counting.{all_counted, counted, nothing_counted};

use dav_model::Answer;

// How many requests were answered, and how many of them 200; how many pieces came, and how many bytes in them. Each
// count stays at the greatest u64 once it is there.
#[derive(Clone, Copy)]
pub struct Counts {
    pub requests: u64,
    pub ok: u64,
    pub pieces: u64,
    pub bytes: u64,
}

impl Counts {
    // Nothing was counted yet.
    pub fn none() -> Self
        ensures { result ≡ nothing_counted }
    {
        Counts {
            requests: 0,
            ok: 0,
            pieces: 0,
            bytes: 0,
        }
    }

    // Counts an answer.
    fn count(&mut self, answer: &Answer)
        ensures { self.new ≡ counted self.old answer.now }
    {
        match answer {
            Answer::Reply { status, .. } => {
                self.requests = self.requests.saturating_add(1);
                if *status == 200 {
                    self.ok = self.ok.saturating_add(1);
                }
            }
            Answer::Piece(bytes) => {
                self.pieces = self.pieces.saturating_add(1);
                self.bytes = self.bytes.saturating_add(bytes.as_slice().len() as u64);
            }
            Answer::End | Answer::Broken | Answer::Done => {}
        }
    }

    // Counts answers.
    pub fn count_all(&mut self, answers: &[Answer])
        ensures { self.new ≡ all_counted self.old answers.now }
    {
        for answer in answers {
            self.count(answer);
        }
    }
}
