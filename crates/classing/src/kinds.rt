// The kinds of survey as types, so that what works on a record or a book is written once for both.
use crate::surveys::Survey;
use crate::units::Measure;
use quantities::angles::{Angle, Angles};
use quantities::heights::{Height, Heights};
use quantities::quantity::Quantity;
use records::word::Payload;
use standards::level::LevelStandard;
use standards::standard::Standard;
use standards::triangulation::TriangulationStandard;

// What a survey of the kind is judged by, and how its measures are told.
pub(crate) trait Kind {
    type Quantity: Quantity + Drop;

    type Standard: Standard + Drop;

    const SURVEY: Survey;

    const QUANTITY: Self::Quantity;

    const STANDARD: Self::Standard;

    // What a contribution or a misclosure comes to.
    fn measure(element: <Self::Quantity as Quantity>::Element) -> Measure;

    // What a payload says as a value or a due sum.
    fn read(payload: Payload) -> Measure;
}

pub(crate) struct Levelling;

pub(crate) struct Triangulating;

impl Kind for Levelling {
    type Quantity = Heights;

    type Standard = LevelStandard;

    const SURVEY: Survey = Survey::Level;

    const QUANTITY: Heights = Heights;

    const STANDARD: LevelStandard = LevelStandard;

    fn measure(element: Height) -> Measure {
        Measure::Height(element.signed())
    }

    fn read(payload: Payload) -> Measure {
        Measure::Height(i128::from(payload.signed()))
    }
}

impl Kind for Triangulating {
    type Quantity = Angles;

    type Standard = TriangulationStandard;

    const SURVEY: Survey = Survey::Triangulation;

    const QUANTITY: Angles = Angles;

    const STANDARD: TriangulationStandard = TriangulationStandard;

    fn measure(element: Angle) -> Measure {
        Measure::Angle(element.signed())
    }

    fn read(payload: Payload) -> Measure {
        Measure::Angle(i128::from(payload.bits))
    }
}
