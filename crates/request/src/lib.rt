// A request: thirteen fields, each with its number and where that came from, or blank; and the tests that
// look at one field alone. A completed request is the same record. Nothing here knows an estimate's rule or
// the model.
#![tactic(auto)]

ghost use Rattle.std.specs.Prelude.{◌≡◌, ℤ, pos};
ghost use Rattle.request.specs.Fields.{is_given, is_estimated, is_blank, value_of, size_of, within, allowed, marked};
ghost use Rattle.request.specs.Styles.{style_of, top_magnitude};

// One figure of a request: measured, inferred by the caller, estimated by us, or blank.
#[derive(Clone, Copy)]
pub enum Field {
    Measured(i64),
    Inferred(i64),
    Estimated(i64),
    Blank,
}

// The figures in document 01's order: magnitude in hundredths, angles in degrees, Vs30 in m/s,
// lengths and depths in metres.
#[derive(Clone, Copy)]
pub struct Request {
    pub m: Field,
    pub rake: Field,
    pub vs30: Field,
    pub dip: Field,
    pub w: Field,
    pub zhyp: Field,
    pub ztor: Field,
    pub rjb: Field,
    pub azimuth: Field,
    pub rrup: Field,
    pub z10: Field,
    pub z15: Field,
    pub z25: Field,
}

// The style of faulting.
#[derive(Clone, Copy)]
pub enum Style {
    StrikeSlip,
    Reverse,
    Normal,
}

impl Field {
    // Whether the caller gave the field, measured or inferred.
    #[tactic(auto, unfolding(crate::specs::Fields::is_given))]
    pub fn is_given(self) -> bool
        ensures { result ≡ is_given self }
    {
        match self {
            Field::Measured(_) => true,
            Field::Inferred(_) => true,
            Field::Estimated(_) => false,
            Field::Blank => false,
        }
    }

    // Whether the field is marked as estimated by us.
    #[tactic(auto, unfolding(crate::specs::Fields::is_estimated))]
    pub fn is_estimated(self) -> bool
        ensures { result ≡ is_estimated self }
    {
        match self {
            Field::Measured(_) => false,
            Field::Inferred(_) => false,
            Field::Estimated(_) => true,
            Field::Blank => false,
        }
    }

    // Whether the field is blank: neither given nor estimated.
    #[tactic(auto, unfolding(crate::specs::Fields::is_blank, crate::specs::Fields::is_given, crate::specs::Fields::is_estimated))]
    pub fn is_blank(self) -> bool
        ensures { result ≡ is_blank self }
    {
        !(self.is_given() | self.is_estimated())
    }

    // The field's number, or 0.
    #[tactic(auto, unfolding(crate::specs::Fields::value_of))]
    pub fn value(self) -> i64
        ensures { result ≡ value_of self }
    {
        match self {
            Field::Measured(v) => v,
            Field::Inferred(v) => v,
            Field::Estimated(v) => v,
            Field::Blank => 0,
        }
    }

    // Its size.
    #[tactic(auto, unfolding(crate::specs::Fields::size_of))]
    pub fn size(self) -> u64
        ensures { result ≡ size_of self }
    {
        self.value().unsigned_abs()
    }

    // Whether the field is given and lies from low to high, both ends included.
    #[tactic(auto, unfolding(crate::specs::Fields::within))]
    pub fn is_within(self, low: i64, high: i64) -> bool
        ensures { result ≡ within self low high }
    {
        let v = self.value();
        self.is_given() && low <= v && v <= high
    }

    // Whether the field is blank, or is given and lies from low to high.
    #[tactic(auto, unfolding(crate::specs::Fields::allowed))]
    pub fn is_allowed(self, low: i64, high: i64) -> bool
        ensures { result ≡ allowed self low high }
    {
        self.is_blank() || self.is_within(low, high)
    }
}

impl Style {
    // The style that a rake stands for: both ranges are open.
    #[tactic(auto, unfolding(crate::specs::Styles::style_of))]
    pub fn of_rake(rake: i64) -> Style
        ensures { result ≡ style_of rake }
    {
        if 30 < rake && rake < 150 {
            Style::Reverse
        } else if -150 < rake && rake < -30 {
            Style::Normal
        } else {
            Style::StrikeSlip
        }
    }

    // Whether a magnitude, in hundredths, is given and lies in the range of the style.
    #[tactic(auto, unfolding(crate::specs::Styles::top_magnitude))]
    pub fn allows(self, m: Field) -> bool
        ensures { result ≡ within m (pos 400) (top_magnitude self) }
    {
        match self {
            Style::StrikeSlip => m.is_within(400, 850),
            Style::Reverse => m.is_within(400, 800),
            Style::Normal => m.is_within(400, 750),
        }
    }
}

impl Request {
    // Whether any field is marked as estimated by us: all thirteen are read, without a branch for each.
    #[tactic(auto, unfolding(crate::specs::Fields::marked))]
    pub fn is_marked(self) -> bool
        ensures { result ≡ marked self }
    {
        self.m.is_estimated()
            | self.rake.is_estimated()
            | self.vs30.is_estimated()
            | self.dip.is_estimated()
            | self.w.is_estimated()
            | self.zhyp.is_estimated()
            | self.ztor.is_estimated()
            | self.rjb.is_estimated()
            | self.azimuth.is_estimated()
            | self.rrup.is_estimated()
            | self.z10.is_estimated()
            | self.z15.is_estimated()
            | self.z25.is_estimated()
    }

    // The style of a request by its rake.
    pub fn style(self) -> Style
        ensures { result ≡ style_of (value_of self.rake) }
    {
        Style::of_rake(self.rake.value())
    }
}
