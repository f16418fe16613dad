// Linear interpolation of parameters in rendering loops.
// Based on MIT-licensed code (c) 2015 by Olivier Gillet (ol.gillet@gmail.com)
ghost use Rattle.std.specs.Prelude.{◌≡◌};
ghost use Rattle.utils.specs.Interpolator.{interpolator, stepped};

// A parameter on its way to a new value. Its value after the last step goes back to the voice's state.
#[derive(Clone, Copy)]
pub struct ParameterInterpolator {
    pub value: f32,
    pub increment: f32,
}

impl ParameterInterpolator {
    // From `value` towards `new_value` in `size` steps.
    pub fn new(value: f32, new_value: f32, size: usize) -> ParameterInterpolator
        ensures { result ≡ interpolator value new_value size }
    {
        ParameterInterpolator {
            value,
            increment: (new_value - value) / words::float_of_u64(size as u64),
        }
    }

    // One step on.
    pub fn next(self) -> ParameterInterpolator
        ensures { result ≡ stepped self }
    {
        ParameterInterpolator {
            value: self.value + self.increment,
            ..self
        }
    }
}
