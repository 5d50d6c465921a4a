//! What a sequential object is.

/// An object that one caller at a time steps.
pub trait Sequential {
    type Call;

    type Reply;

    /// What a step may do: the object before, the call, the reply and the object after.
    ghost allowed: { Self → Self.Call → Self.Reply → Self → Type 0 };

    /// Makes one call. It waits for nobody.
    fn step(&mut self, call: Self::Call) -> Self::Reply
        ensures { allowed self.old call result self.new };
}
