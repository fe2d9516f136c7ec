// What a call answers where it is not refused: any type whose values say something in document 01's
// words, and say it once.
ghost use Rattle.std.specs.Prelude.{◌≡◌};
ghost use Rattle.call.specs.Said.{Reply, done_reply, value, option, pair_reply, flag};
ghost use Rattle.call.specs.Once.{done_once, value_once, option_once, pair_once, flag_once};

pub trait Answer: Copy {
    ghost reply: { Self → Reply };

    ghost once: { (a b : Self) → reply a ≡ reply b → a ≡ b };
}

impl Answer for () {
    ghost reply = { done_reply };

    ghost once = { done_once };
}

impl Answer for f32 {
    ghost reply = { value };

    ghost once = { value_once };
}

impl Answer for Option<f32> {
    ghost reply = { option };

    ghost once = { option_once };
}

impl Answer for (f32, f32) {
    ghost reply = { pair_reply };

    ghost once = { pair_once };
}

impl Answer for bool {
    ghost reply = { flag };

    ghost once = { flag_once };
}
