// The counter stack: pushing, popping and comparing hand back the whole counter stack.
#![tactic(auto)]

ghost use Rattle.std.specs.Prelude.{◌≡◌, ℕ, Option};
ghost use Rattle.rules.specs.declared.Stack.{Stack};
ghost use Rattle.rules.specs.Numbers.{names};
ghost use Rattle.rules.specs.Stack.{fresh, top};
ghost use Rattle.stack.specs.Methods.{pushing, popping, comparing};

use rules::Stack;

#[derive(Clone, Copy, Debug, PartialEq, Eq)]
pub enum StackReply {
    Yes,
    No,
    Full,
}

// The reply, and the whole stack beside it, also where it is full.
#[derive(Clone, Copy)]
pub struct Handed {
    pub reply: StackReply,
    pub stack: Stack,
}

// Whether k is in 1..n: the number of a record of a file, or of an entry of the stack.
#[tactic(auto, unfolding(rules::specs::Numbers::names))]
pub fn names(n: usize, k: usize) -> bool
    ensures { result ≡ names n k }
{
    (1..=n).contains(&k)
}

// The counter stack's methods. They stand in a trait, since the stack is declared in `rules`.
pub trait Counters {
    ghost held: { Self → Stack };

    // 96 zeros at depth 0.
    fn fresh() -> Self
        ensures { held result ≡ fresh };

    // The top, if there is one.
    fn top(&self) -> Option<u16>
        ensures { result ≡ top (held self.now) };

    // Push replies yes, or says that the stack is full.
    fn push(self, y: u16) -> Handed
        ensures { result ≡ pushing (held self) y };

    // Pop replies no on empty, else yes.
    fn pop(self) -> Handed
        ensures { result ≡ popping (held self) };

    // Compare replies yes exactly if not empty and the top equals y, and keeps it.
    fn top_is(self, y: u16) -> Handed
        ensures { result ≡ comparing (held self) y };
}

// Push and pop take the stack by its parts and put it together again, for speed: with the stack changed as one value a run of pushes,
// compares and pops took half as long again.
impl Counters for Stack {
    ghost held = { λ s. s };

    fn fresh() -> Stack {
        Stack {
            entries: [0; 96],
            depth: 0,
        }
    }

    #[tactic(auto, using(crate::proofs::Methods::tops))]
    fn top(&self) -> Option<u16> {
        match self.depth {
            1..=96 => Some(self.entries[self.depth - 1]),
            _ => None,
        }
    }

    #[tactic(auto, unfolding(crate::specs::Methods::pushing, rules::specs::Stack::full, rules::specs::Stack::pushed))]
    fn push(self, y: u16) -> Handed {
        let Stack {
            mut entries,
            mut depth,
        } = self;
        let mut reply = StackReply::Full;
        if depth < 96 {
            entries[depth] = y;
            depth += 1;
            reply = StackReply::Yes;
        }
        Handed {
            reply,
            stack: Stack { entries, depth },
        }
    }

    #[tactic(auto, using(crate::proofs::Methods::top_in), unfolding(crate::specs::Methods::popping, crate::specs::Methods::said, rules::specs::Stack::popped, rules::specs::Stack::without, rules::specs::Stack::nonempty))]
    fn pop(self) -> Handed {
        let Stack {
            mut entries,
            mut depth,
        } = self;
        let mut reply = StackReply::No;
        if self.top().is_some() {
            depth -= 1;
            entries[depth] = 0;
            reply = StackReply::Yes;
        }
        Handed {
            reply,
            stack: Stack { entries, depth },
        }
    }

    #[tactic(auto, unfolding(crate::specs::Methods::comparing, crate::specs::Methods::said, rules::specs::Stack::equals))]
    fn top_is(self, y: u16) -> Handed {
        let reply = if self.top() == Some(y) {
            StackReply::Yes
        } else {
            StackReply::No
        };
        Handed { reply, stack: self }
    }
}
