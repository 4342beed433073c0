//! Why a net is not legal.
use thiserror::Error;

/// The first fault of a net: limits come first, then the jobs in their order, then the outputs. A job has its first
/// fault in the order below. Jobs and outputs are told by their numbers from 0.
#[derive(Clone, Copy, Debug, PartialEq, Eq, Error)]
pub enum NetFault {
    /// A term of the job names no earlier cell.
    #[error("job {job} names a later cell")]
    Forward { job: u32 },
    /// The sum of the job, from `low` to `high` by the degrees of its cells, can leave the table: `low` is below 0,
    /// or `high` above `4^space - 1`.
    #[error("job {job} ranges from {low} to {high}")]
    Range { job: u32, low: i32, high: i32 },
    /// The sum of the noise tags of the job's cells, each times the size of its weight, is above `2^space + 1`.
    #[error("job {job} gathers noise {sum}")]
    Noise { job: u32, sum: u32 },
    /// The job's table has not `4^space` entries below `4^space`.
    #[error("the table of job {job} is not one of the space")]
    Table { job: u32 },
    /// The job declares another degree than its sum can reach.
    #[error("job {job} declares degree {declared} and reaches {reached}")]
    Degree { job: u32, declared: u8, reached: u8 },
    /// The output of this index has a wrong form or number of cells, an earlier output's name, or a cell that is
    /// none or whose degree is above `2^space - 1`, or above 1 in a bit.
    #[error("output {index} is wrong")]
    Output { index: u32 },
    /// The value of field 1 is the space, which is not 2 or 3; of field 2 the count of inputs, above 64; of field 3
    /// the number of an input, from 0, whose form, degree or noise is out of range or whose name an earlier one has;
    /// of field 4 the count of jobs, above 65,536; of field 5 the number of a job, from 0, with more than 16 terms;
    /// of field 6 the count of outputs, above 64.
    #[error("field {field} is outside its limit with {value}")]
    Limit { field: u8, value: u64 },
}
