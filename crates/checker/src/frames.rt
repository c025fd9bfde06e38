ghost use Rattle.std.specs.Prelude.{◌≡◌, ◌+◌, ◌-◌, ◌*◌, ◌<◌, ◌≤◌, length, set};
ghost use Rattle.instance.specs.Memory.{frames_size};

// An extension with branches still to visit: its clause, the place of the next literal, and the log's height with the clause
// spent.
#[derive(Clone, Copy)]
pub struct Frame {
    pub clause: usize,
    pub next: usize,
    pub height: usize,
}

// The frames as they lie in lent memory, three words each: there is no heap. The last extension is on top.
#[derive(Drop)]
pub struct Frames<'a> {
    pub words: &'a mut [u64],
    pub depth: usize,
    ghost enough_words: { frames_size ≤ length words.now },
    ghost fits: { 3 * depth ≤ length words.now },
}

impl Frames<'_> {
    ghost use Rattle.checker.specs.Frames.{frame_at, framed};

    pub fn push(&mut self, frame: Frame)
        requires { 3 * self.old.depth + 2 < length self.old.words.now }
        ensures words { self.new.words.now ≡ framed self.old.words.now self.old.depth frame }
        ensures depth { self.new.depth ≡ self.old.depth + 1 }
    {
        let place = 3 * self.depth;
        self.words[place] = frame.clause as u64;
        self.words[place + 1] = frame.next as u64;
        self.words[place + 2] = frame.height as u64;
        self.depth += 1;
    }

    pub fn last(&self) -> Frame
        requires { 1 ≤ self.now.depth }
        ensures { result ≡ frame_at self.now.words.now (self.now.depth - 1) }
    {
        let place = 3 * (self.depth - 1);
        Frame {
            clause: self.words[place] as usize,
            next: self.words[place + 1] as usize,
            height: self.words[place + 2] as usize,
        }
    }

    // Sets the last frame's next literal.
    pub fn advance(&mut self, next: usize)
        requires { 1 ≤ self.old.depth }
        ensures words { self.new.words.now ≡ set self.old.words.now (3 * (self.old.depth - 1) + 1) next }
        ensures depth { self.new.depth ≡ self.old.depth }
    {
        self.words[3 * (self.depth - 1) + 1] = next as u64;
    }

    pub fn pop(&mut self)
        requires { 1 ≤ self.old.depth }
        ensures words { self.new.words.now ≡ self.old.words.now }
        ensures depth { self.new.depth ≡ self.old.depth - 1 }
    {
        self.depth -= 1;
    }
}
