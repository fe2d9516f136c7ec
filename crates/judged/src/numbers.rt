// Calls of the functions that have no record: the wrap, the root, the trigonometry and the blend. What
// a call is given, then the floats that it may write, as in records.rt.
use crate::sample::{Lent, Record};
use boundary_learners::functions::{track_blend, track_float, track_trig};
use float::float_of;
use std::io::Read;

// Operation, argument; answer.
pub(crate) fn float(record: &mut Record<impl Read>) -> bool {
    let [operation, argument] = record.words::<2>();
    let lent = Lent::<1>::read(record);
    let mut answer = lent.parts().floats();
    let gives = track_float(operation, float_of(argument), &mut answer);
    (gives == record.number) & lent.left(record).parts().are_floats(answer)
}

// Operation, two arguments; answer.
pub(crate) fn trig(record: &mut Record<impl Read>) -> bool {
    let [operation, a, b] = record.words::<3>();
    let lent = Lent::<1>::read(record);
    let mut answer = lent.parts().floats();
    let gives = track_trig(operation, float_of(a), float_of(b), &mut answer);
    (gives == record.number) & lent.left(record).parts().are_floats(answer)
}

// Whether there is GPS, the IMU's acceleration, that of GPS, confidence, three weights; two values.
pub(crate) fn blend(record: &mut Record<impl Read>) -> bool {
    let [has_gps, imu, gps, confidence, high, medium, low] = record.words::<7>();
    let [imu, gps, confidence] = [imu, gps, confidence].map(float_of);
    let weights = [high, medium, low].map(float_of);
    let lent = Lent::<2>::read(record);
    let mut values = lent.parts().floats();
    let gives = track_blend(imu, has_gps, gps, confidence, &weights, &mut values);
    (gives == record.number) & lent.left(record).parts().are_floats(values)
}
