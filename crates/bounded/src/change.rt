ghost use Rattle.std.specs.Prelude.{◌≡◌};

// A value that an event changes in place. A reader of the contracts sees the value by its `view`, and an event as a
// function from views to views. A trait and not a closure: the law says once, for all calls, what an event makes of a view.
pub trait Change {
    type Event;

    ghost View: { Type 0 };

    ghost view: { Self → View };

    ghost after: { Self.Event → View → View };

    fn change(&mut self, event: Self::Event)
        ensures { view self.new ≡ after event (view self.old) };
}
